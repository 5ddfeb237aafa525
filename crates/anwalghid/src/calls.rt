// Each call over lent tables. Its answer stands in three words; the code says whether it was made.
ghost use Rattle.std.specs.Prelude.{List, ℕ, Some, None};
ghost use Rattle.rules.specs.Types.{Answer};
ghost use Rattle.rules.specs.Model.{pid};
ghost use Rattle.rules.specs.Runs.{Call, boot, start, spawn, system_return, fork, thread, dispatch, yield, sleep, wakeup, kill, wait, join, thread_exit, exit, grow};
ghost use Rattle.promises.specs.Order.Sound.{Sound};
ghost use Rattle.promises.specs.Did.{Did};
ghost use Rattle.words.specs.Reading.{table_of};
ghost use Rattle.codes.specs.Codes.{is_flag, yes, is_wish, wish_of, is_mapped, mapped_of};
ghost use Rattle.anwalghid.specs.Exports.{allowed, InOrder, Exported};

use crate::{ANSWERED, NOT_ONE_TABLE, OUT_OF_RANGE};
use rules::{Answer, Pid, ThreadAsk};
use words::Table;

// If `call` is the call c on any table, c is what is exported.
fn on_one<F: FnOnce(&mut [u64; Table::WORDS]) -> Answer>(
    tables: &mut [[u64; Table::WORDS]],
    answer: &mut [u64; answers::WORDS],
    call: F,
) -> u64
    requires in_order { InOrder tables.old }
    requires callable { (t : _) → Sound (table_of t.now) → F.pre call t }
    ensures { (c : Call) → ((t : _) (a : Answer) (u : _) → F.post call t a u → Did c (table_of t.now) a (table_of u.now)) → Exported (Some c) tables.old answer.old result tables.new answer.new }
{
    // By index: what is left in a slice pattern's element isn't known to be left in the slice.
    if tables.len() != 1 {
        return NOT_ONE_TABLE;
    }
    *answer = sights::words_of(call(&mut tables[0]));
    ANSWERED
}

// The number of tables is looked at before any argument.
#[tactic(auto, using(crate::proofs::ExportLaws::other_number, crate::proofs::ExportLaws::not_called))]
fn out_of_range(tables: &[[u64; Table::WORDS]]) -> u64
    ensures { (b : List ℕ) → InOrder tables.now → Exported None tables.now b result tables.now b }
{
    if tables.len() == 1 {
        OUT_OF_RANGE
    } else {
        NOT_ONE_TABLE
    }
}

#[unsafe(no_mangle)]
pub extern "C" fn anwalghid_user_init(
    tables: &mut [[u64; Table::WORDS]],
    answer: &mut [u64; answers::WORDS],
) -> u64
    requires { InOrder tables.old }
    ensures { Exported (Some boot) tables.old answer.old result tables.new answer.new }
{
    on_one(tables, answer, |t| births::user_init(t))
}

#[unsafe(no_mangle)]
pub extern "C" fn anwalghid_start_init_process(
    tables: &mut [[u64; Table::WORDS]],
    answer: &mut [u64; answers::WORDS],
) -> u64
    requires { InOrder tables.old }
    ensures { Exported (Some start) tables.old answer.old result tables.new answer.new }
{
    on_one(tables, answer, |t| births::start_init_process(t))
}

#[unsafe(no_mangle)]
pub extern "C" fn anwalghid_spawn_system_thread(
    tables: &mut [[u64; Table::WORDS]],
    name: &[u8],
    entry: u64,
    answer: &mut [u64; answers::WORDS],
) -> u64
    requires { InOrder tables.old }
    ensures { Exported (Some (spawn name.now entry)) tables.old answer.old result tables.new answer.new }
{
    on_one(
        tables,
        answer,
        |t| births::spawn_system_thread(t, name, entry),
    )
}

#[unsafe(no_mangle)]
pub extern "C" fn anwalghid_free_system_thread(
    tables: &mut [[u64; Table::WORDS]],
    hart: usize,
    answer: &mut [u64; answers::WORDS],
) -> u64
    requires { InOrder tables.old }
    ensures { Exported (Some (system_return hart)) tables.old answer.old result tables.new answer.new }
{
    on_one(tables, answer, |t| births::free_system_thread(t, hart))
}

#[unsafe(no_mangle)]
pub extern "C" fn anwalghid_fork(
    tables: &mut [[u64; Table::WORDS]],
    hart: usize,
    memory: u64,
    answer: &mut [u64; answers::WORDS],
) -> u64
    requires { InOrder tables.old }
    ensures { Exported (allowed (is_flag memory) (fork hart (yes memory))) tables.old answer.old result tables.new answer.new }
{
    let Some(memory) = codes::flag(memory) else {
        return out_of_range(tables);
    };
    on_one(tables, answer, |t| forks::fork(t, hart, memory))
}

#[unsafe(no_mangle)]
pub extern "C" fn anwalghid_create_user_thread(
    tables: &mut [[u64; Table::WORDS]],
    hart: usize,
    entry: u64,
    arg: u64,
    stack: u64,
    ret: u64,
    mapped: u64,
    answer: &mut [u64; answers::WORDS],
) -> u64
    requires { InOrder tables.old }
    ensures { Exported (allowed (is_mapped mapped) (thread hart (record { entry = entry; arg = arg; stack = stack; ret = ret }) (mapped_of mapped))) tables.old answer.old result tables.new answer.new }
{
    let Some(mapped) = codes::mapped(mapped) else {
        return out_of_range(tables);
    };
    let ask = ThreadAsk {
        entry,
        arg,
        stack,
        ret,
    };
    on_one(
        tables,
        answer,
        |t| forks::create_user_thread(t, hart, ask, mapped),
    )
}

#[unsafe(no_mangle)]
pub extern "C" fn anwalghid_dequeue_runnable(
    tables: &mut [[u64; Table::WORDS]],
    hart: usize,
    answer: &mut [u64; answers::WORDS],
) -> u64
    requires { InOrder tables.old }
    ensures { Exported (Some (dispatch hart)) tables.old answer.old result tables.new answer.new }
{
    on_one(tables, answer, |t| sched::dequeue_runnable(t, hart))
}

#[unsafe(no_mangle)]
pub extern "C" fn anwalghid_yielding(
    tables: &mut [[u64; Table::WORDS]],
    hart: usize,
    answer: &mut [u64; answers::WORDS],
) -> u64
    requires { InOrder tables.old }
    ensures { Exported (Some (yield hart)) tables.old answer.old result tables.new answer.new }
{
    on_one(tables, answer, |t| sched::yielding(t, hart))
}

#[unsafe(no_mangle)]
pub extern "C" fn anwalghid_sleep(
    tables: &mut [[u64; Table::WORDS]],
    hart: usize,
    channel: u64,
    answer: &mut [u64; answers::WORDS],
) -> u64
    requires { InOrder tables.old }
    ensures { Exported (Some (sleep hart channel)) tables.old answer.old result tables.new answer.new }
{
    on_one(tables, answer, |t| sched::sleep(t, hart, channel))
}

#[unsafe(no_mangle)]
pub extern "C" fn anwalghid_wake_up(
    tables: &mut [[u64; Table::WORDS]],
    channel: u64,
    answer: &mut [u64; answers::WORDS],
) -> u64
    requires { InOrder tables.old }
    ensures { Exported (Some (wakeup channel)) tables.old answer.old result tables.new answer.new }
{
    on_one(tables, answer, |t| sched::wake_up(t, channel))
}

#[unsafe(no_mangle)]
pub extern "C" fn anwalghid_kill(
    tables: &mut [[u64; Table::WORDS]],
    p: u64,
    answer: &mut [u64; answers::WORDS],
) -> u64
    requires { InOrder tables.old }
    ensures { Exported (Some (kill (pid p))) tables.old answer.old result tables.new answer.new }
{
    on_one(tables, answer, |t| sched::kill(t, Pid(p)))
}

#[unsafe(no_mangle)]
pub extern "C" fn anwalghid_wait(
    tables: &mut [[u64; Table::WORDS]],
    hart: usize,
    wish: u64,
    answer: &mut [u64; answers::WORDS],
) -> u64
    requires { InOrder tables.old }
    ensures { Exported (allowed (is_wish wish) (wait hart (wish_of wish))) tables.old answer.old result tables.new answer.new }
{
    let Some(wish) = codes::wish(wish) else {
        return out_of_range(tables);
    };
    on_one(tables, answer, |t| waits::wait(t, hart, wish))
}

#[unsafe(no_mangle)]
pub extern "C" fn anwalghid_join_user_thread(
    tables: &mut [[u64; Table::WORDS]],
    hart: usize,
    p: u64,
    wish: u64,
    answer: &mut [u64; answers::WORDS],
) -> u64
    requires { InOrder tables.old }
    ensures { Exported (allowed (is_wish wish) (join hart (pid p) (wish_of wish))) tables.old answer.old result tables.new answer.new }
{
    let Some(wish) = codes::wish(wish) else {
        return out_of_range(tables);
    };
    on_one(
        tables,
        answer,
        |t| waits::join_user_thread(t, hart, Pid(p), wish),
    )
}

#[unsafe(no_mangle)]
pub extern "C" fn anwalghid_thread_exit(
    tables: &mut [[u64; Table::WORDS]],
    hart: usize,
    status: u64,
    answer: &mut [u64; answers::WORDS],
) -> u64
    requires { InOrder tables.old }
    ensures { Exported (Some (thread_exit hart status)) tables.old answer.old result tables.new answer.new }
{
    on_one(tables, answer, |t| ends::thread_exit(t, hart, status))
}

#[unsafe(no_mangle)]
pub extern "C" fn anwalghid_exit(
    tables: &mut [[u64; Table::WORDS]],
    hart: usize,
    status: u64,
    answer: &mut [u64; answers::WORDS],
) -> u64
    requires { InOrder tables.old }
    ensures { Exported (Some (exit hart status)) tables.old answer.old result tables.new answer.new }
{
    on_one(tables, answer, |t| ends::exit(t, hart, status))
}

#[unsafe(no_mangle)]
pub extern "C" fn anwalghid_grow_proc(
    tables: &mut [[u64; Table::WORDS]],
    hart: usize,
    count: i64,
    memory: u64,
    answer: &mut [u64; answers::WORDS],
) -> u64
    requires { InOrder tables.old }
    ensures { Exported (allowed (is_flag memory) (grow hart count (yes memory))) tables.old answer.old result tables.new answer.new }
{
    let Some(memory) = codes::flag(memory) else {
        return out_of_range(tables);
    };
    on_one(
        tables,
        answer,
        |t| growth::grow_proc(t, hart, count, memory),
    )
}
