// The types that the rules and the code share, under the Rust's names where they carry over.
#![tactic(auto)]

// A process or thread number. Never given twice.
#[derive(Clone, Copy, PartialEq, Eq)]
pub struct Pid(pub u64);

// A place in the table.
#[derive(Clone, Copy, PartialEq, Eq)]
pub struct Slot(pub usize);

#[derive(Clone, Copy, PartialEq, Eq)]
pub enum ProcState {
    UNUSED,
    ALLOCATED,
    RUNNABLE,
    RUNNING,
    SLEEPING,
    ZOMBIE,
}

#[derive(Clone, Copy)]
pub struct ProcMeta {
    pub state: ProcState,
    pub channel: u64,
    pub killed: bool,
    pub xstate: u64,
    pub pid: Pid,
    pub queued: bool,
}

// Of the Rust's ProcData: to whom the slot belongs.
#[derive(Clone, Copy)]
pub struct Kin {
    pub group: Option<usize>,
    pub parent: Option<Slot>,
    pub thread: bool,
    pub system: bool,
}

// Of the Rust's ProcData, what a slot is born with. sp: first stack pointer; entry, top, arg and ret: the start record.
#[derive(Clone, Copy)]
pub struct Start {
    pub trapframe: u64,
    pub sp: u64,
    pub entry: u64,
    pub top: u64,
    pub arg: u64,
    pub ret: u64,
    pub name: [u8; 16],
}

#[derive(Clone, Copy)]
pub struct Process {
    pub meta: ProcMeta,
    pub kin: Kin,
    pub start: Start,
}

// The Rust's UserAddressSpace, with the count of its Arc.
#[derive(Clone, Copy)]
pub struct Group {
    pub size: u64,
    pub count: u64,
}

// What a caller of wait or join says of the status.
#[derive(Clone, Copy)]
pub enum Wish {
    NotWanted,
    Writable,
    Unwritable,
}

// What create_user_thread is asked for.
#[derive(Clone, Copy)]
pub struct ThreadAsk {
    pub entry: u64,
    pub arg: u64,
    pub stack: u64,
    pub ret: u64,
}

// The host's answers on a thread's addresses: is it mapped? `top` speaks of the stack top - 1.
#[derive(Clone, Copy)]
pub struct Mapped {
    pub entry: bool,
    pub ret: bool,
    pub stack: bool,
    pub top: bool,
}

// Why a call was refused. `number_of` in specs/Answers.antt gives each its number.
#[derive(Clone, Copy)]
pub enum Refusal {
    NoSuchHart,
    HartIdle,
    HartBusy,
    QueueEmpty,
    TableFull,
    PidsSpent,
    NoGroup,
    BadAddress,
    Unmapped,
    NoneSuch,
    StatusUnwritable,
    InitOutOfTurn,
    WrongWayOut,
    NotADevice,
    NameTooLong,
    NoRoom,
    SizeOutOfLimits,
    NoMemory,
}

// What a granted call tells.
#[derive(Clone, Copy)]
pub enum Grant {
    Done,
    Made(Pid),
    Handed(Slot),
    Reaped(Pid, u64),
    Joined(i32),
    Blocked,
}

// What every call answers.
pub type Answer = Result<Grant, Refusal>;
