// The operations of the text protocol, each read from a line.
use super::values;
use geometry::isometry::Isometry;
use text::Words;
use time::stamp::Stamp;

// A pose that is added to the tree.
#[derive(Drop)]
pub(crate) struct Addition {
    pub(crate) child: u32,
    pub(crate) parent: u32,
    pub(crate) stamp: Stamp,
    pub(crate) pose: Isometry,
}

// The source seen from the target, at an instant.
#[derive(Drop)]
pub(crate) struct Question {
    pub(crate) target: u32,
    pub(crate) source: u32,
    pub(crate) t: u64,
}

// What a line asks for, with its operands.
#[derive(Drop)]
pub(crate) enum Operation<'a> {
    Open {
        rows: u64,
        samples: u64,
        max_age: Option<u64>,
    },
    Lend {
        head: u64,
        instants: u64,
        poses: u64,
    },
    // No map file is lent any more.
    NoMap,
    // The bytes with these digits are appended to the map file.
    Map(&'a [u8]),
    Add(Addition),
    Wipe {
        child: u32,
        t: u64,
    },
    Load,
    SetHead(u64, u64),
    SetInstants(u64, u64),
    SetPoses(u64, f64),
    Lookup(Question),
    Common {
        target: u32,
        source: u32,
    },
    Show(Question),
    Why(Question),
    Tree,
    Dot,
    Words,
    // The number of the name whose bytes have these digits, and the name of a number.
    Frame(&'a [u8]),
    Name(u32),
    Mul(Isometry, Isometry),
    Inv(Isometry),
    Interp {
        first: Isometry,
        second: Isometry,
        start: u64,
        end: u64,
        t: u64,
    },
    Sqrt(f64),
    Acos(f64),
    Sin(f64),
}

// `E S none`, `E S AGE`
fn open<'a>(words: &mut Words<'_>) -> Option<Operation<'a>> {
    Some(Operation::Open {
        rows: words.number()?,
        samples: words.number()?,
        max_age: values::max_age(words)?,
    })
}

// `H I P`
fn lend<'a>(words: &mut Words<'_>) -> Option<Operation<'a>> {
    Some(Operation::Lend {
        head: words.number()?,
        instants: words.number()?,
        poses: words.number()?,
    })
}

// `none`, `HEX`
fn map<'a>(words: &mut Words<'a>) -> Option<Operation<'a>> {
    if words.keyword(b"none") {
        return Some(Operation::NoMap);
    }
    Some(Operation::Map(words.word()?))
}

// `CHILD PARENT KIND INSTANT P`
fn add<'a>(words: &mut Words<'_>) -> Option<Operation<'a>> {
    Some(Operation::Add(Addition {
        child: words.frame()?,
        parent: words.frame()?,
        stamp: values::stamp(words)?,
        pose: values::pose(words)?,
    }))
}

// `CHILD INSTANT`
fn wipe<'a>(words: &mut Words<'_>) -> Option<Operation<'a>> {
    Some(Operation::Wipe {
        child: words.frame()?,
        t: words.number()?,
    })
}

// `head I N`, `instants I N`, `poses I F`
fn set<'a>(words: &mut Words<'_>) -> Option<Operation<'a>> {
    if words.keyword(b"head") {
        return Some(Operation::SetHead(words.number()?, words.number()?));
    }
    if words.keyword(b"instants") {
        return Some(Operation::SetInstants(words.number()?, words.number()?));
    }
    if words.keyword(b"poses") {
        return Some(Operation::SetPoses(words.number()?, words.float()?));
    }
    None
}

// `TARGET SOURCE INSTANT`
fn ask(words: &mut Words<'_>) -> Option<Question> {
    Some(Question {
        target: words.frame()?,
        source: words.frame()?,
        t: words.number()?,
    })
}

// `TARGET SOURCE`
fn common<'a>(words: &mut Words<'_>) -> Option<Operation<'a>> {
    Some(Operation::Common {
        target: words.frame()?,
        source: words.frame()?,
    })
}

// `HEX`, or nothing for the empty name
fn frame<'a>(words: &mut Words<'a>) -> Option<Operation<'a>> {
    if words.ended() {
        return Some(Operation::Frame(b""));
    }
    Some(Operation::Frame(words.word()?))
}

// `P P FROM TO QUERY`
fn interp<'a>(words: &mut Words<'_>) -> Option<Operation<'a>> {
    Some(Operation::Interp {
        first: values::pose(words)?,
        second: values::pose(words)?,
        start: words.number()?,
        end: words.number()?,
        t: words.number()?,
    })
}

// What the words behind the operation's name say.
fn operands<'a>(name: &[u8], words: &mut Words<'a>) -> Option<Operation<'a>> {
    match name {
        b"open" => open(words),
        b"lend" => lend(words),
        b"map" => map(words),
        b"add" => add(words),
        b"wipe" => wipe(words),
        b"load" => Some(Operation::Load),
        b"set" => set(words),
        b"lookup" => Some(Operation::Lookup(ask(words)?)),
        b"common" => common(words),
        b"show" => Some(Operation::Show(ask(words)?)),
        b"why" => Some(Operation::Why(ask(words)?)),
        b"tree" => Some(Operation::Tree),
        b"dot" => Some(Operation::Dot),
        b"words" => Some(Operation::Words),
        b"frame" => frame(words),
        b"name" => Some(Operation::Name(words.frame()?)),
        b"mul" => Some(Operation::Mul(values::pose(words)?, values::pose(words)?)),
        b"inv" => Some(Operation::Inv(values::pose(words)?)),
        b"interp" => interp(words),
        b"sqrt" => Some(Operation::Sqrt(words.float()?)),
        b"acos" => Some(Operation::Acos(words.float()?)),
        b"sin" => Some(Operation::Sin(words.float()?)),
        _ => None,
    }
}

impl<'a> Operation<'a> {
    // The operation of a line; None where the line is malformed.
    pub(crate) fn read(line: &'a [u8]) -> Option<Operation<'a>> {
        let mut words = Words { line, at: 0 };
        let name = words.word()?;
        let operation = operands(name, &mut words)?;
        words.ended().then_some(operation)
    }
}
