// Writes item rows anew: each content in its shortest form, and one of them with another title.
#![tactic(auto)]

ghost use Rattle.std.specs.Prelude.{◌≡◌, List, ◌∷◌, [], ℕ, ◌≤◌, ◌<◌, ◌*◌, ◌+◌, ◌-◌, min, length};
ghost use Rattle.room.specs.Parts.{joined};
ghost use Rattle.vlq.specs.Vlq.{vlq, sized};
ghost use Rattle.rows.specs.Rows.{item_width, item_from, ItemIn, ItemRows};
ghost use Rattle.title_text.specs.Description.{content, titled};
ghost use Rattle.title_text.specs.Text as text;
ghost use Rattle.title_text.specs.Text.{field_text, content_text, items_text};
ghost use Rattle.room.specs.Counts.{Counts, too_many};
ghost use Rattle.title_items.specs.Contents.{content_at, contents_from, front_text, RowIn, row_text};

use cursor::Item;

// Puts string format and data.
fn put_text(out: &mut [u8], to: usize, format: u64, bytes: &[u8]) -> usize
    ensures { Counts out.old out.new to (joined (vlq format ∷ bytes.now ∷ [])) result }
{
    let a = vlq::put_number(out, to, format);
    room::put_bytes(out, a, bytes)
}

// Puts a universal content: a length, string format and data.
fn put_universal(out: &mut [u8], to: usize, format: u64, bytes: &[u8]) -> usize
    ensures { Counts out.old out.new to (sized (joined (vlq format ∷ bytes.now ∷ []))) result }
{
    let n = room::on(vlq::vlq_size(format), bytes.len());
    let a = vlq::put_number(out, to, n as u64);
    put_text(out, a, format, bytes)
}

// Puts a version: a declared type, a length and data.
fn put_version(out: &mut [u8], to: usize, declared: u64, bytes: &[u8]) -> usize
    ensures { Counts out.old out.new to (joined (vlq declared ∷ sized bytes.now ∷ [])) result }
{
    let a = vlq::put_number(out, to, declared);
    let b = vlq::put_number(out, a, bytes.len() as u64);
    room::put_bytes(out, b, bytes)
}

// Puts the content of item row k with that data.
fn put_content(out: &mut [u8], to: usize, items: &[u64], k: usize, bytes: &[u8]) -> usize
    requires { k * item_width + item_width ≤ length items.now }
    ensures { (f : List ℕ) → Counts out.old out.new to (content_text (titled bytes.now (content f (item_from items.now (k * item_width))))) result }
{
    let item = rows::item_at(items, k);
    if item.version == 0 {
        return put_universal(out, to, item.format, bytes);
    }
    put_version(out, to, item.declared, bytes)
}

// Puts the content of item row k: row `row` with the title, and another with the file's data.
fn put_content_at(
    out: &mut [u8],
    to: usize,
    file: &[u8],
    items: &[u64],
    k: usize,
    row: usize,
    title: &[u8],
) -> usize
    requires { (k * item_width + item_width ≤ length items.now) × ItemIn (length file.now) (item_from items.now (k * item_width)) }
    ensures { Counts out.old out.new to (content_text (content_at file.now row title.now items.now k)) result }
{
    let item = rows::item_at(items, k);
    if k == row {
        return put_content(out, to, items, k, title);
    }
    let from = item.place as usize;
    let end = from + item.size as usize;
    put_content(out, to, items, k, &file[from..end])
}

// Puts the field of an item row: a custom name with its length, or 0 and a standard number.
fn put_field(out: &mut [u8], to: usize, file: &[u8], item: Item) -> usize
    requires { ItemIn (length file.now) item }
    ensures { Counts out.old out.new to (field_text (content file.now item)) result }
{
    if item.kind == 1 {
        let a = vlq::put_number(out, to, item.name_length);
        return room::put_part(out, a, file, item.field as usize, item.name_length as usize);
    }
    let a = vlq::put_number(out, to, 0);
    vlq::put_number(out, a, item.field)
}

// How many item rows from row `first` on, and before row `end`, are further versions of the item before them.
fn further(items: &[u64], first: usize, end: usize) -> u64
    requires { (first ≤ end) × (end * item_width ≤ length items.now) }
    ensures count { (f : List ℕ) (row : ℕ) (title : List ℕ) → result ≡ text.further (contents_from f row title items.now first (end - first)) }
    ensures few { result ≤ end - first }
{
    for k in first..end {
        if rows::item_at(items, k).version <= 1 {
            return (k - first) as u64;
        }
    }
    (end - first) as u64
}

// Puts what the item of row k has before its contents, the rows before row `end`: its field and the number of versions.
fn put_start(out: &mut [u8], to: usize, file: &[u8], items: &[u64], k: usize, end: usize) -> usize
    requires { (k < end) × (end * item_width ≤ length items.now) × ItemIn (length file.now) (item_from items.now (k * item_width)) }
    ensures { (row : ℕ) (title : List ℕ) → Counts out.old out.new to (front_text file.now row title items.now k end) result }
{
    let item = rows::item_at(items, k);
    let a = put_field(out, to, file, item);
    if item.version == 0 {
        return vlq::put_number(out, a, 0);
    }
    vlq::put_number(out, a, 1 + further(items, k + 1, end))
}

// Puts item row k, with what its item has before it where it is the first of the item.
fn put_item(
    out: &mut [u8],
    to: usize,
    file: &[u8],
    items: &[u64],
    k: usize,
    end: usize,
    row: usize,
    title: &[u8],
) -> usize
    requires { (k < end) × (end * item_width ≤ length items.now) × ItemIn (length file.now) (item_from items.now (k * item_width)) }
    ensures { Counts out.old out.new to (row_text file.now row title.now items.now k end) result }
{
    if rows::item_at(items, k).version <= 1 {
        let a = put_start(out, to, file, items, k, end);
        return put_content_at(out, a, file, items, k, row, title);
    }
    put_content_at(out, to, file, items, k, row, title)
}

// Puts the item rows from row `first` on, up to row `end`. Into an empty buffer they are measured.
pub fn put_items(
    out: &mut [u8],
    to: usize,
    file: &[u8],
    items: &[u64],
    first: usize,
    end: usize,
    row: usize,
    title: &[u8],
) -> usize
    requires { (first ≤ end) × ItemRows (length file.now) end items.now }
    ensures { Counts out.old out.new to (items_text (contents_from file.now row title.now items.now first (end - first))) result }
{
    let mut next = to;
    for k in first..end {
        next = put_item(out, next, file, items, k, end, row, title);
    }
    next
}
