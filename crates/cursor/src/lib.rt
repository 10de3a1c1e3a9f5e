// Places, the cursor, and the fields that everything is made of: numbers, a length with its block, manufacturers, GUIDs.
#![tactic(auto)]

ghost use Rattle.std.specs.Prelude.{◌≡◌, ◌≤◌, ◌<◌, ◌^◌, ◌+◌, length};
ghost use Rattle.machine.specs.Machine.{run};
ghost use Rattle.cursor.specs.Rows.{Frame};
ghost use Rattle.cursor.specs.Leaves.{number, block, manufacturer, guid};
ghost use Rattle.cursor.specs.Told.{ByteTold, number_told, pass_told};
ghost use Rattle.refusals.specs.Reasons.{number_of};

use refusals::{Reason, Refusal};

// The words of a row, and how many rows and levels there may be.
pub const NODE_WIDTH: usize = 13;

pub const ITEM_WIDTH: usize = 10;

pub const MOST_NODES: usize = 256;

pub const MOST_ITEMS: usize = 1024;

pub const MOST_DEPTH: usize = 16;

// A place counted from the file's first byte.
#[derive(Clone, Copy)]
pub struct FilePlace(pub usize);

// A place counted from a node's first byte.
#[derive(Clone, Copy)]
pub struct NodePlace(pub usize);

// Where reading goes on.
#[derive(Clone, Copy)]
pub struct Cursor {
    pub at: FilePlace,
}

// A byte and the cursor after it.
#[derive(Clone, Copy)]
pub struct Byte {
    pub value: u64,
    pub next: Cursor,
}

// A row of the node table (01, Rows; 02, E3), in the order of its words. `contained` is the number of contained items, `unpackers` the unpackers' place,
// `rows` the item row count.
#[derive(Clone, Copy)]
pub struct Node {
    pub start: u64,
    pub size: u64,
    pub header: u64,
    pub contained: u64,
    pub parent: u64,
    pub depth: u64,
    pub reference: u64,
    pub target: u64,
    pub extent: u64,
    pub unpackers: u64,
    pub unpacker_count: u64,
    pub rows: u64,
    pub detached: u64,
}

// A row of the item table (01, Rows), in the order of its ten words: one for each universal content or version. `declared` is
// 01's type, `name_length` the name's length.
#[derive(Clone, Copy)]
pub struct Item {
    pub node: u64,
    pub item: u64,
    pub kind: u64,
    pub field: u64,
    pub name_length: u64,
    pub version: u64,
    pub declared: u64,
    pub format: u64,
    pub place: u64,
    pub size: u64,
}

impl FilePlace {
    // The place p of the node that starts here, as a place of the file: the one way from the one unit to the other.
    pub fn of(self, p: NodePlace) -> FilePlace
        requires { self.0 + p.0 < 2 ^ 64 }
        ensures { result.0 ≡ self.0 + p.0 }
    {
        FilePlace(self.0 + p.0)
    }
}

// A byte as a number.
pub fn wide(b: u8) -> u64
    ensures { (result ≡ b) × (result < 256) }
{
    b as u64
}

impl Cursor {
    // The byte here. One below 80h is the whole number.
    pub fn byte(self, file: &[u8]) -> Byte
        requires { self.at.0 < length file.now }
        ensures { ByteTold result file.now self.at.0 }
    {
        let at = self.at.0;
        let value = wide(file[at]);
        let next = self.on(1);
        Byte { value, next }
    }

    // The number here, in a part that ends at `end`; `past` is the refusal of one that runs past it.
    pub fn number(self, file: &[u8], end: FilePlace, past: Reason) -> Result<(u64, Cursor), Refusal>
        requires { end.0 ≤ length file.now }
        ensures { (κ : Frame) → number_told result ≡ run (number κ (number_of past) end.0) file.now self.at.0 }
    {
        let start = self.at;
        let stop = end.0;
        let first = start.0;
        // Almost every number is one byte, and is read straight away. The loop below is the rule for any number.
        if first < stop {
            let one = self.byte(file);
            if one.value < 128 {
                let next = one.next;
                return Ok((one.value, next));
            }
        }
        let mut at = first;
        let mut value: u64 = 0;
        let mut left: usize = 4;
        loop {
            if left == 0 {
                break Err(Refusal(Reason::BadNumber, first));
            }
            if stop <= at {
                break Err(Refusal(past, first));
            }
            let byte = wide(file[at]);
            at = at + 1;
            left = left - 1; // a leading 80h counts too
            value = value * 128 + byte % 128;
            if byte < 128 {
                break Ok((value, Cursor { at: FilePlace(at) }));
            }
        }
    }

    // The cursor after `size` bytes.
    pub fn on(self, size: u64) -> Cursor
        requires { self.at.0 + size < 2 ^ 64 }
        ensures { result.at.0 ≡ self.at.0 + size }
    {
        let place = self.at;
        Cursor {
            at: FilePlace(place.0 + size as usize),
        }
    }

    // The length here, with the block that it counts; the cursor is then at the block.
    pub fn block(self, file: &[u8], end: FilePlace, past: Reason) -> Result<(u64, Cursor), Refusal>
        requires { end.0 ≤ length file.now }
        ensures { (κ : Frame) → number_told result ≡ run (block κ (number_of past) end.0) file.now self.at.0 }
    {
        let place = self.at;
        let (size, c) = self.number(file, end, past)?;
        let first = c.at;
        if end.0 - first.0 < size as usize {
            return Err(Refusal(past, place.0));
        }
        Ok((size, c))
    }

    // The manufacturer here: one byte, or three when the first is 0.
    pub fn manufacturer(self, file: &[u8], end: FilePlace) -> Result<Cursor, Refusal>
        requires { end.0 ≤ length file.now }
        ensures { (κ : Frame) → pass_told result ≡ run (manufacturer κ end.0) file.now self.at.0 }
    {
        let place = self.at;
        let at = place.0;
        if end.0 <= at {
            return Err(Refusal(Reason::CutShort, at));
        }
        let b = wide(file[at]);
        if b != 0 {
            return Ok(Cursor {
                at: FilePlace(at + 1),
            });
        }
        if end.0 - at < 3 {
            return Err(Refusal(Reason::CutShort, at));
        }
        Ok(Cursor {
            at: FilePlace(at + 3),
        })
    }

    // The GUID here: 1 to 19 bytes, ended by the first below 80h.
    pub fn guid(self, file: &[u8], end: FilePlace) -> Result<Cursor, Refusal>
        requires { end.0 ≤ length file.now }
        ensures { (κ : Frame) → pass_told result ≡ run (guid κ end.0) file.now self.at.0 }
    {
        let start = self.at;
        let stop = end.0;
        let first = start.0;
        let mut at = first;
        let mut left: usize = 19;
        loop {
            if left == 0 {
                break Err(Refusal(Reason::BadNumber, first));
            }
            if stop <= at {
                break Err(Refusal(Reason::CutShort, first));
            }
            let byte = wide(file[at]);
            at = at + 1;
            left = left - 1;
            if byte < 128 {
                break Ok(Cursor { at: FilePlace(at) });
            }
        }
    }
}
