// Which of the channels that wait to leave ramp value 0 do so in a span of ticks, and when. Of a channel only numbers are asked for, so
// that who may leave is decided apart from what a channel does then. specs/ says it tick by tick; here no loop counts ticks.
#![tactic(auto)]

ghost use Rattle.std.specs.Prelude.{◌≡◌, ◌-◌, ◌^◌, ◌<◌};
ghost use Rattle.turns.specs.Turns.{may_leave, period_of, ticked, fallen, turns_after};
ghost use Rattle.turns.specs.Departures.{shortest, IsNext};

mod period;

pub use period::Period;

// A channel by how it waits.
#[derive(Clone, Copy)]
pub enum Waiter {
    // The clocks at which it would leave are the multiples of its period.
    Waits(Period),
    // It does not wait, and did so for so many ticks before the one in which it left.
    Left(u32),
}

impl Waiter {
    fn period(self) -> Option<Period>
        ensures { result ≡ period_of self }
    {
        match self {
            Waiter::Waits(period) => Some(period),
            Waiter::Left(_) => None,
        }
    }

    #[tactic(auto, unfolding(crate::specs::Turns::may_leave))]
    fn may_leave(self, wait: u16, clock: u64) -> bool
        ensures { result ≡ may_leave clock wait self }
    {
        match self {
            Waiter::Waits(period) => (wait == 0) & (period.ticks_to(clock) == 0),
            Waiter::Left(_) => false,
        }
    }
}

// The shared wait, and the channels from 1 to 6.
#[derive(Clone, Copy)]
pub struct Turns {
    pub wait: u16,
    pub waiters: [Waiter; 6],
}

// The wait when so many ticks have passed and none has left.
pub fn fall(wait: u16, ticks: u32) -> u16
    ensures { result ≡ wait - ticks }
{
    u32::from(wait).saturating_sub(ticks) as u16
}

impl Turns {
    fn shortest(&self) -> Option<Period>
        ensures { result ≡ shortest self.now.waiters }
    {
        self.waiters
            .iter()
            .filter_map(|waiter| waiter.period())
            .min()
    }

    // The next of so many ticks in which one leaves. The multiples of a period are multiples of each shorter one.
    fn next_leave(&self, clock: u64, ticks: u32) -> Option<u32>
        requires { clock < 2 ^ 33 }
        ensures { IsNext clock self.now ticks result }
    {
        let wait = self.wait.max(1);
        let period = self.shortest()?;
        let tick = u32::from(wait) + u32::from(period.ticks_to(clock + u64::from(wait)));
        (tick <= ticks).then_some(tick)
    }

    // One tick, in turn: who may leave does.
    fn leave(self, delay: u16, clock: u64, past: u32) -> Turns
        ensures { result ≡ ticked clock past delay self }
    {
        let Turns {
            mut wait,
            mut waiters,
        } = self;
        for waiter in waiters.iter_mut() {
            if waiter.may_leave(wait, clock) {
                *waiter = Waiter::Left(past);
                wait = delay;
            }
        }
        Turns { wait, waiters }
    }

    fn fallen(self, ticks: u32) -> Turns
        ensures { result ≡ fallen ticks self }
    {
        Turns {
            wait: fall(self.wait, ticks),
            ..self
        }
    }

    // So many ticks of them. Each round takes the ticks up to the next one in which a channel leaves, and each leaves once at most: so
    // there are no more rounds than channels.
    pub fn after(self, delay: u16, clock: u32, ticks: u32) -> Turns
        ensures { result ≡ turns_after delay clock ticks self }
    {
        let mut now = self;
        let mut past = 0;
        while let Some(tick) = now.next_leave(u64::from(clock) + u64::from(past), ticks - past) {
            past += tick;
            now = now
                .fallen(tick)
                .leave(delay, u64::from(clock) + u64::from(past), past - 1);
        }
        now.fallen(ticks - past)
    }
}
