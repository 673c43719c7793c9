//! What a host keeps beside its program behind a step.

ghost use Rattle.std.specs.Prelude.{◌≡◌, is_some, if◌then◌else◌};
ghost use Rattle.std.specs.Option.{option_map};
ghost use Rattle.cdp_host_isolation.specs.Meanings.{is_first, next_number, phase_of, waits, woken};
ghost use Rattle.cdp_host.specs.Hosts.{pause_behind};

use cdp_host_isolation::Phase;
use cdp_session::Pause;

/// The greatest number of a stop.
const GREATEST_STOP: u64 = 1 << 62;

/// The number of the stop behind so many.
pub(crate) fn next_number(stops: u64) -> u64
    ensures { result ≡ next_number stops }
{
    if stops < GREATEST_STOP {
        stops + 1
    } else {
        stops
    }
}

/// The stop behind so many, where a step stopped the program with so many calls active.
pub(crate) fn pause_behind(stops: u64, stopped: Option<usize>) -> Option<Pause>
    ensures { result ≡ option_map (pause_behind stops) stopped }
{
    match stopped {
        Some(depth) => Some(Pause {
            number: next_number(stops),
            depth,
        }),
        None => None,
    }
}

/// How many stops there are behind so many, where a step stopped the program or didn't.
pub(crate) fn stops_behind(stops: u64, stopped: Option<usize>) -> u64
    ensures { result ≡ (if is_some stopped then next_number stops else stops) }
{
    match stopped {
        Some(_) => next_number(stops),
        None => stops,
    }
}

// ---- how far a program has begun

/// How far a program has begun before its first step: it may be to wait.
pub(crate) fn phase_of(wait: bool) -> Phase
    ensures { result ≡ phase_of wait }
{
    if wait { Phase::Waiting } else { Phase::Running }
}

/// Whether a program waits for a client.
pub(crate) fn waits(phase: Phase) -> bool
    ensures { result ≡ waits phase }
{
    match phase {
        Phase::Waiting => true,
        Phase::Woken | Phase::Running => false,
    }
}

/// Whether the next step is the first of a program that waited for a client.
pub(crate) fn is_first(phase: Phase) -> bool
    ensures { result ≡ is_first phase }
{
    match phase {
        Phase::Waiting | Phase::Woken => true,
        Phase::Running => false,
    }
}

/// A program that waits begins.
pub(crate) fn woken(phase: Phase) -> Phase
    ensures { result ≡ woken phase }
{
    match phase {
        Phase::Waiting | Phase::Woken => Phase::Woken,
        Phase::Running => Phase::Running,
    }
}
