// A slot's fields and its parts, read and set.
#![tactic(auto, using(crate::proofs::SlotLaws::slot_laws), unfolding(crate::specs::Reading::process_of, crate::specs::Reading::row_of, crate::specs::Reading::tab, crate::specs::Reading::tab_from))]

ghost use Rattle.std.specs.Prelude.{◌≡◌, ◌<◌};
ghost use Rattle.rules.specs.Sizes.{slot_count};
ghost use Rattle.rules.specs.Model.{at, on_meta, with_parent};
ghost use Rattle.rules.specs.Moves.{change};
ghost use Rattle.promises.specs.Order.Chains.{on_core};
ghost use Rattle.words.specs.Reading.{table_of, start_of, InTable, InGroups};
ghost use Rattle.words.specs.Effects.{with_state, with_channel, with_killed, with_xstate, with_pid, with_queued, with_meta, with_kin, with_start};

use crate::layout::{Column, get, put};
use crate::{Table, word};
use rules::{Kin, Pid, ProcMeta, ProcState, Slot};

// The Start of a slot as the words have it: the trapframe as its distance below TRAPFRAME, the name in two words.
#[derive(Clone, Copy)]
pub struct StartWords {
    pub below: u64,
    pub sp: u64,
    pub entry: u64,
    pub top: u64,
    pub arg: u64,
    pub ret: u64,
    pub name0: u64,
    pub name1: u64,
}

// A free slot's parts.
pub const FREE_META: ProcMeta = ProcMeta {
    state: ProcState::UNUSED,
    channel: 0,
    killed: false,
    xstate: 0,
    pid: Pid(0),
    queued: false,
};

pub const FREE_KIN: Kin = Kin {
    group: None,
    parent: None,
    thread: false,
    system: false,
};

pub const FREE_START: StartWords = StartWords {
    below: 0,
    sp: 0,
    entry: 0,
    top: 0,
    arg: 0,
    ret: 0,
    name0: 0,
    name1: 0,
};

// How a state stands in the words is known to `state_at` and `set_state` alone.
pub fn state_at(t: &[u64; Table::WORDS], s: usize) -> ProcState
    requires { s < slot_count }
    ensures { result ≡ (at (table_of t.now).core s).meta.state }
{
    word::state_of(get(t, Column::State, s))
}

pub fn set_state(t: &mut [u64; Table::WORDS], s: usize, state: ProcState)
    requires { s < slot_count }
    ensures { table_of t.new ≡ on_core (change (on_meta (with_state state)) s) (table_of t.old) }
{
    put(t, Column::State, s, word::state_code(state));
}

pub fn channel_at(t: &[u64; Table::WORDS], s: usize) -> u64
    requires { s < slot_count }
    ensures { result ≡ (at (table_of t.now).core s).meta.channel }
{
    get(t, Column::Channel, s)
}

pub fn set_channel(t: &mut [u64; Table::WORDS], s: usize, channel: u64)
    requires { s < slot_count }
    ensures { table_of t.new ≡ on_core (change (on_meta (with_channel channel)) s) (table_of t.old) }
{
    put(t, Column::Channel, s, channel);
}

pub fn set_killed(t: &mut [u64; Table::WORDS], s: usize, killed: bool)
    requires { s < slot_count }
    ensures { table_of t.new ≡ on_core (change (on_meta (with_killed killed)) s) (table_of t.old) }
{
    put(t, Column::Killed, s, word::flag_word(killed));
}

pub fn set_xstate(t: &mut [u64; Table::WORDS], s: usize, status: u64)
    requires { s < slot_count }
    ensures { table_of t.new ≡ on_core (change (on_meta (with_xstate status)) s) (table_of t.old) }
{
    put(t, Column::Xstate, s, status);
}

pub fn pid_at(t: &[u64; Table::WORDS], s: usize) -> Pid
    requires { s < slot_count }
    ensures { result ≡ (at (table_of t.now).core s).meta.pid }
{
    Pid(get(t, Column::Pid, s))
}

fn set_pid(t: &mut [u64; Table::WORDS], s: usize, pid: Pid)
    requires { s < slot_count }
    ensures { table_of t.new ≡ on_core (change (on_meta (with_pid pid)) s) (table_of t.old) }
{
    put(t, Column::Pid, s, pid.0);
}

pub fn set_queued(t: &mut [u64; Table::WORDS], s: usize, queued: bool)
    requires { s < slot_count }
    ensures { table_of t.new ≡ on_core (change (on_meta (with_queued queued)) s) (table_of t.old) }
{
    put(t, Column::Queued, s, word::flag_word(queued));
}

pub fn parent_at(t: &[u64; Table::WORDS], s: usize) -> Option<Slot>
    requires { s < slot_count }
    ensures { (result ≡ (at (table_of t.now).core s).kin.parent) × InTable result }
{
    word::parent_of(get(t, Column::Parent, s))
}

pub fn set_parent(t: &mut [u64; Table::WORDS], s: usize, parent: Option<Slot>)
    requires { (s < slot_count) × InTable parent }
    ensures { table_of t.new ≡ on_core (change (with_parent parent) s) (table_of t.old) }
{
    put(t, Column::Parent, s, word::parent_word(parent));
}

pub fn meta_at(t: &[u64; Table::WORDS], s: usize) -> ProcMeta
    requires { s < slot_count }
    ensures { result ≡ (at (table_of t.now).core s).meta }
{
    ProcMeta {
        state: state_at(t, s),
        channel: channel_at(t, s),
        killed: word::flag_of(get(t, Column::Killed, s)),
        xstate: get(t, Column::Xstate, s),
        pid: pid_at(t, s),
        queued: word::flag_of(get(t, Column::Queued, s)),
    }
}

pub fn set_meta(t: &mut [u64; Table::WORDS], s: usize, m: ProcMeta)
    requires { s < slot_count }
    ensures { table_of t.new ≡ on_core (change (with_meta m) s) (table_of t.old) }
{
    set_state(t, s, m.state);
    set_channel(t, s, m.channel);
    set_killed(t, s, m.killed);
    set_xstate(t, s, m.xstate);
    set_pid(t, s, m.pid);
    set_queued(t, s, m.queued);
}

pub fn kin_at(t: &[u64; Table::WORDS], s: usize) -> Kin
    requires { s < slot_count }
    ensures { (result ≡ (at (table_of t.now).core s).kin) × InGroups result.group × InTable result.parent }
{
    Kin {
        group: word::member_of(get(t, Column::Group, s)),
        parent: parent_at(t, s),
        thread: word::flag_of(get(t, Column::Thread, s)),
        system: word::flag_of(get(t, Column::System, s)),
    }
}

pub fn set_kin(t: &mut [u64; Table::WORDS], s: usize, k: Kin)
    requires { (s < slot_count) × InGroups k.group × InTable k.parent }
    ensures { table_of t.new ≡ on_core (change (with_kin k) s) (table_of t.old) }
{
    put(t, Column::Group, s, word::member_word(k.group));
    put(t, Column::Parent, s, word::parent_word(k.parent));
    put(t, Column::Thread, s, word::flag_word(k.thread));
    put(t, Column::System, s, word::flag_word(k.system));
}

pub fn start_at(t: &[u64; Table::WORDS], s: usize) -> StartWords
    requires { s < slot_count }
    ensures { start_of result ≡ (at (table_of t.now).core s).start }
{
    StartWords {
        below: get(t, Column::Below, s),
        sp: get(t, Column::Sp, s),
        entry: get(t, Column::Entry, s),
        top: get(t, Column::Top, s),
        arg: get(t, Column::Arg, s),
        ret: get(t, Column::Ret, s),
        name0: get(t, Column::Name0, s),
        name1: get(t, Column::Name1, s),
    }
}

pub fn set_start(t: &mut [u64; Table::WORDS], s: usize, b: StartWords)
    requires { s < slot_count }
    ensures { table_of t.new ≡ on_core (change (with_start (start_of b)) s) (table_of t.old) }
{
    put(t, Column::Below, s, b.below);
    put(t, Column::Sp, s, b.sp);
    put(t, Column::Entry, s, b.entry);
    put(t, Column::Top, s, b.top);
    put(t, Column::Arg, s, b.arg);
    put(t, Column::Ret, s, b.ret);
    put(t, Column::Name0, s, b.name0);
    put(t, Column::Name1, s, b.name1);
}
