// Any call, by value.
#![tactic(auto)]

ghost use Rattle.std.specs.Prelude.{◌≡◌, ◌≤◌};
ghost use Rattle.rules.specs.Runs.{spawn};
ghost use Rattle.promises.specs.Order.Sound.{Sound};
ghost use Rattle.promises.specs.Did.{Did};
ghost use Rattle.words.specs.Reading.{table_of};
ghost use Rattle.steps.specs.ByValue.{least, piece_of, call_of};

use rules::{Answer, Mapped, Pid, ThreadAsk, Wish};
use words::Table;

// A call by value. A name is a piece of a lent text: where it starts, and how long it is.
#[derive(Clone, Copy)]
pub enum Call {
    Boot,
    Start,
    Spawn(usize, usize, u64),
    SystemReturn(usize),
    Fork(usize, bool),
    Thread(usize, ThreadAsk, Mapped),
    Dispatch(usize),
    Yield(usize),
    Sleep(usize, u64),
    Wakeup(u64),
    Kill(Pid),
    Wait(usize, Wish),
    Join(usize, Pid, Wish),
    ThreadExit(usize, u64),
    Exit(usize, u64),
    Grow(usize, i64, bool),
}

pub fn least(a: usize, b: usize) -> usize
    ensures { (result ≡ least a b) × (result ≤ b) }
{
    a.min(b)
}

#[tactic(auto, using(std::proofs::lemmas::List::take_min, std::proofs::lemmas::List::drop_min))]
fn spawn(t: &mut [u64; Table::WORDS], text: &[u8], start: usize, len: usize, entry: u64) -> Answer
    requires { Sound (table_of t.old) }
    ensures { Did (spawn (piece_of text.now start len) entry) (table_of t.old) result (table_of t.new) }
{
    let rest = &text[start.min(text.len())..];
    births::spawn_system_thread(t, &rest[..len.min(rest.len())], entry)
}

pub fn step(t: &mut [u64; Table::WORDS], text: &[u8], c: Call) -> Answer
    requires { Sound (table_of t.old) }
    ensures { Did (call_of text.now c) (table_of t.old) result (table_of t.new) }
{
    match c {
        Call::Boot => births::user_init(t),
        Call::Start => births::start_init_process(t),
        Call::Spawn(start, len, entry) => spawn(t, text, start, len, entry),
        Call::SystemReturn(hart) => births::free_system_thread(t, hart),
        Call::Fork(hart, memory) => forks::fork(t, hart, memory),
        Call::Thread(hart, a, m) => forks::create_user_thread(t, hart, a, m),
        Call::Dispatch(hart) => sched::dequeue_runnable(t, hart),
        Call::Yield(hart) => sched::yielding(t, hart),
        Call::Sleep(hart, channel) => sched::sleep(t, hart, channel),
        Call::Wakeup(channel) => sched::wake_up(t, channel),
        Call::Kill(p) => sched::kill(t, p),
        Call::Wait(hart, w) => waits::wait(t, hart, w),
        Call::Join(hart, p, w) => waits::join_user_thread(t, hart, p, w),
        Call::ThreadExit(hart, status) => ends::thread_exit(t, hart, status),
        Call::Exit(hart, status) => ends::exit(t, hart, status),
        Call::Grow(hart, count, memory) => growth::grow_proc(t, hart, count, memory),
    }
}
