// The operations of the examples, each with its thread.
use record::{Event, Op};

pub fn read(thread: u8, var: u8, value: u16) -> Event {
    let op = Op::Read { var, value };
    Event { thread, op }
}

pub fn write(thread: u8, var: u8, value: u16) -> Event {
    let op = Op::Write { var, value };
    Event { thread, op }
}

pub fn acquire(thread: u8, lock: u8) -> Event {
    let op = Op::Acquire { lock };
    Event { thread, op }
}

pub fn release(thread: u8, lock: u8) -> Event {
    let op = Op::Release { lock };
    Event { thread, op }
}

pub fn prewait(thread: u8, lock: u8) -> Event {
    let op = Op::Prewait { lock };
    Event { thread, op }
}

pub fn postwait(thread: u8, lock: u8) -> Event {
    let op = Op::Postwait { lock };
    Event { thread, op }
}

pub fn notify(thread: u8, lock: u8) -> Event {
    let op = Op::Notify { lock };
    Event { thread, op }
}

pub fn fork(thread: u8, child: u8) -> Event {
    let op = Op::Fork { child };
    Event { thread, op }
}

pub fn join(thread: u8, child: u8) -> Event {
    let op = Op::Join { child };
    Event { thread, op }
}

pub fn yields(thread: u8) -> Event {
    let op = Op::Yield;
    Event { thread, op }
}
