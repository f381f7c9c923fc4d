//! What a schedule does next, or why a text is none.

ghost use Rattle.std.specs.Prelude.{◌≡◌};
ghost use Rattle.route_run.specs.declared.schedule.ScheduleRefusal.TheVariants as schedule_refusal;

use base_kit::NoMemory;
use std::alloc::AllocError;
use thiserror::Error;

/// What a schedule does next.
#[derive(Clone, Copy, Debug, Drop, PartialEq, Eq)]
pub enum Activation {
    /// One router is activated.
    One(u32),
    /// All routers are activated, in order.
    Round,
}

/// Why a text is no schedule.
#[derive(Debug, Drop, Error)]
pub enum ScheduleRefusal {
    /// A word on this line is neither `*` nor the name of a router.
    #[error("line {0}: unknown router")]
    UnknownRouter(u32),
    /// Memory ran out.
    #[error("out of memory")]
    Memory,
}

impl From<NoMemory> for ScheduleRefusal {
    ghost from_gives = { λ _ e. e ≡ schedule_refusal.Memory };

    fn from(_: NoMemory) -> Self {
        ScheduleRefusal::Memory
    }
}

impl From<AllocError> for ScheduleRefusal {
    ghost from_gives = { λ _ e. e ≡ schedule_refusal.Memory };

    fn from(_: AllocError) -> Self {
        ScheduleRefusal::Memory
    }
}
