// Scheduling: dispatch, yield, sleep, wake, kill.
#![tactic(auto, using(crate::proofs::SchedLaws::refusals), unfolding(rules::specs::Sizes::hart_count, rules::specs::Sizes::slot_count, rules::specs::Sizes::first_device))]

ghost use Rattle.rules.specs.Runs.{dispatch, yield, sleep, wakeup, kill};
ghost use Rattle.promises.specs.Order.Sound.{Sound};
ghost use Rattle.promises.specs.Did.{Did};
ghost use Rattle.words.specs.Reading.{table_of};

use rules::{Answer, Grant, Pid, Refusal, Slot};
use words::{Table, book, queue};

// The first device's channel: 0 is none, then each slot's own.
pub const FIRST_DEVICE: u64 = (Table::SLOTS as u64) + 1;

// Dispatch: the head leaves the queue and runs on hart h.
pub fn dequeue_runnable(t: &mut [u64; Table::WORDS], hart: usize) -> Answer
    requires { Sound (table_of t.old) }
    ensures { Did (dispatch hart) (table_of t.old) result (table_of t.new) }
{
    if hart >= Table::HARTS {
        return Err(Refusal::NoSuchHart);
    }
    if book::hart_at(t, hart).is_some() {
        return Err(Refusal::HartBusy);
    }
    if queue::waiting(t) == 0 {
        return Err(Refusal::QueueEmpty);
    }
    let i = queue::pop(t);
    moves::run_on(t, hart, i);
    Ok(Grant::Handed(Slot(i)))
}

pub fn yielding(t: &mut [u64; Table::WORDS], hart: usize) -> Answer
    requires { Sound (table_of t.old) }
    ensures { Did (yield hart) (table_of t.old) result (table_of t.new) }
{
    let caller = taking::caller_on(t, hart)?;
    moves::yield_on(t, hart, caller);
    Ok(Grant::Done)
}

pub fn sleep(t: &mut [u64; Table::WORDS], hart: usize, channel: u64) -> Answer
    requires { Sound (table_of t.old) }
    ensures { Did (sleep hart channel) (table_of t.old) result (table_of t.new) }
{
    let caller = taking::caller_on(t, hart)?;
    if channel < FIRST_DEVICE {
        return Err(Refusal::NotADevice);
    }
    moves::sleep_on(t, hart, caller, channel);
    Ok(Grant::Done)
}

pub fn wake_up(t: &mut [u64; Table::WORDS], channel: u64) -> Answer
    requires { Sound (table_of t.old) }
    ensures { Did (wakeup channel) (table_of t.old) result (table_of t.new) }
{
    if channel < FIRST_DEVICE {
        return Err(Refusal::NotADevice);
    }
    wakes::wake_up(t, channel);
    Ok(Grant::Done)
}

pub fn kill(t: &mut [u64; Table::WORDS], pid: Pid) -> Answer
    requires { Sound (table_of t.old) }
    ensures { Did (kill pid) (table_of t.old) result (table_of t.new) }
{
    let i = scans::with_pid(t, pid).ok_or(Refusal::NoneSuch)?;
    wakes::slay(t, i);
    Ok(Grant::Done)
}
