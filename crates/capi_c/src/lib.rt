// The exports for C and Rust: each calls the function of its name in `capi`, which says what it answers, and promises the same.
#![tactic(auto)]

ghost use Rattle.std.specs.Prelude.{◌∷◌, []};
ghost use Rattle.shelf.specs.Shelf.{label};
ghost use Rattle.shelf.specs.Runs.{putting, dropping};
ghost use Rattle.promises.specs.Promises.{read_tree, find_item, find_own, resolve_row, copy_resource, count_for, judge_mobile, write_sheet, write_sheet2, correct_title, mend_header, to_utf8, to_utf16, move_sheet, count_frames, tag_frame};
ghost use Rattle.capi.specs.Leaves.{asked, Leaves, LeavesTotals, LeavesShelf, LeavesSheet};

// Reads the tree. Answer: version (100, 101, 200), nodes, item rows.
#[unsafe(no_mangle)]
pub extern "C" fn xmf_read_tree(
    file: &[u8],
    nodes: &mut [u64],
    items: &mut [u64],
    answer: &mut [u64],
)
    ensures { Leaves read_tree file.now (nodes.old ∷ items.old ∷ []) (nodes.new ∷ items.new ∷ []) answer.old answer.new }
{
    capi::xmf_read_tree(file, nodes, items, answer);
}

// Finds the nearest item of a field, from a node row: of the standard number (kind 0), or of the custom name (any other kind).
#[unsafe(no_mangle)]
pub extern "C" fn xmf_find(
    file: &[u8],
    nodes: &mut [u64],
    items: &mut [u64],
    row: usize,
    kind: u64,
    number: u64,
    name: &[u8],
    answer: &mut [u64],
)
    ensures { Leaves (find_item (asked kind number name.now) row) file.now (nodes.old ∷ items.old ∷ []) (nodes.new ∷ items.new ∷ []) answer.old answer.new }
{
    capi::xmf_find(file, nodes, items, row, kind, number, name, answer);
}

// Finds a node row's own item of a field: of the standard number (kind 0), or of the custom name (any other kind).
#[unsafe(no_mangle)]
pub extern "C" fn xmf_find_own(
    file: &[u8],
    nodes: &mut [u64],
    items: &mut [u64],
    row: usize,
    kind: u64,
    number: u64,
    name: &[u8],
    answer: &mut [u64],
)
    ensures { Leaves (find_own (asked kind number name.now) row) file.now (nodes.old ∷ items.old ∷ []) (nodes.new ∷ items.new ∷ []) answer.old answer.new }
{
    capi::xmf_find_own(file, nodes, items, row, kind, number, name, answer);
}

// Resolves a node row's resource. Answer: place, length, row, references followed.
#[unsafe(no_mangle)]
pub extern "C" fn xmf_resolve(
    file: &[u8],
    nodes: &mut [u64],
    items: &mut [u64],
    row: usize,
    answer: &mut [u64],
)
    ensures { Leaves (resolve_row row) file.now (nodes.old ∷ items.old ∷ []) (nodes.new ∷ items.new ∷ []) answer.old answer.new }
{
    capi::xmf_resolve(file, nodes, items, row, answer);
}

// Resolves a node row's resource and copies it. Answer: as for xmf_resolve. The bytes may be hidden ones, which a reference 2 leads to.
#[unsafe(no_mangle)]
pub extern "C" fn xmf_resource(
    file: &[u8],
    nodes: &mut [u64],
    items: &mut [u64],
    row: usize,
    out: &mut [u8],
    answer: &mut [u64],
)
    ensures { Leaves (copy_resource row) file.now (nodes.old ∷ items.old ∷ out.old ∷ []) (nodes.new ∷ items.new ∷ out.new ∷ []) answer.old answer.new }
{
    capi::xmf_resource(file, nodes, items, row, out, answer);
}

// Reads the content description that is the item row. Answer: its count for a channel and a resource, both numbered from 0.
#[unsafe(no_mangle)]
pub extern "C" fn xmf_voice_count(
    file: &[u8],
    nodes: &mut [u64],
    items: &mut [u64],
    item_row: usize,
    channel: u64,
    resource: u64,
    answer: &mut [u64],
)
    ensures { Leaves (count_for item_row channel resource) file.now (nodes.old ∷ items.old ∷ []) (nodes.new ∷ items.new ∷ []) answer.old answer.new }
{
    capi::xmf_voice_count(file, nodes, items, item_row, channel, resource, answer);
}

// Judges Mobile XMF. Answer: the verdict.
#[unsafe(no_mangle)]
pub extern "C" fn xmf_judge(file: &[u8], nodes: &mut [u64], items: &mut [u64], answer: &mut [u64])
    ensures { Leaves judge_mobile file.now (nodes.old ∷ items.old ∷ []) (nodes.new ∷ items.new ∷ []) answer.old answer.new }
{
    capi::xmf_judge(file, nodes, items, answer);
}

// Counts the file's bytes by kind. Answer: the nine counts. `totals` goes in and comes back: files, refused, nine sums; words that are missing are 0 and are not stored.
#[unsafe(no_mangle)]
pub extern "C" fn xmf_account(
    file: &[u8],
    nodes: &mut [u64],
    items: &mut [u64],
    totals: &mut [u64],
    answer: &mut [u64],
)
    ensures { LeavesTotals file.now nodes.old items.old nodes.new items.new totals.old totals.new answer.old answer.new }
{
    capi::xmf_account(file, nodes, items, totals, answer);
}

// Writes the support sheet. Answer: bytes written.
#[unsafe(no_mangle)]
pub extern "C" fn xmf_write_sheet(
    file: &[u8],
    nodes: &mut [u64],
    items: &mut [u64],
    sheet: &mut [u8],
    answer: &mut [u64],
)
    ensures { Leaves write_sheet file.now (nodes.old ∷ items.old ∷ sheet.old ∷ []) (nodes.new ∷ items.new ∷ sheet.new ∷ []) answer.old answer.new }
{
    capi::xmf_write_sheet(file, nodes, items, sheet, answer);
}

// Writes the support sheet in its second edition. Answer: bytes written.
#[unsafe(no_mangle)]
pub extern "C" fn xmf_write_sheet2(
    file: &[u8],
    nodes: &mut [u64],
    items: &mut [u64],
    sheet: &mut [u8],
    answer: &mut [u64],
)
    ensures { Leaves write_sheet2 file.now (nodes.old ∷ items.old ∷ sheet.old ∷ []) (nodes.new ∷ items.new ∷ sheet.new ∷ []) answer.old answer.new }
{
    capi::xmf_write_sheet2(file, nodes, items, sheet, answer);
}

// Writes the file anew with a title as the data of an item row. Answer: bytes written. The new file holds the hidden bytes of the old one.
#[unsafe(no_mangle)]
pub extern "C" fn xmf_correct_title(
    file: &[u8],
    nodes: &mut [u64],
    items: &mut [u64],
    row: usize,
    title: &[u8],
    out: &mut [u8],
    answer: &mut [u64],
)
    ensures { Leaves (correct_title row title.now) file.now (nodes.old ∷ items.old ∷ out.old ∷ []) (nodes.new ∷ items.new ∷ out.new ∷ []) answer.old answer.new }
{
    capi::xmf_correct_title(file, nodes, items, row, title, out, answer);
}

// Copies the file with FileLength and TreeEnd set right, in the bytes that they have, and writes a line for each that changed. Answer: bytes of the copy, bytes of the
// lines. The copy holds the hidden bytes of the file.
#[unsafe(no_mangle)]
pub extern "C" fn xmf_mend(
    file: &[u8],
    nodes: &mut [u64],
    items: &mut [u64],
    copy: &mut [u8],
    lines: &mut [u8],
    answer: &mut [u64],
)
    ensures { Leaves mend_header file.now (nodes.old ∷ items.old ∷ copy.old ∷ lines.old ∷ [])
        (nodes.new ∷ items.new ∷ copy.new ∷ lines.new ∷ []) answer.old answer.new }
{
    capi::xmf_mend(file, nodes, items, copy, lines, answer);
}

// Converts UTF-16, high byte first, into UTF-8; one leading mark FEFF is dropped. Answer: bytes written. It converts what it is given, hidden text too, and
// stands outside demand 3.
#[unsafe(no_mangle)]
pub extern "C" fn xmf_utf16_to_utf8(units: &[u8], text: &mut [u8], answer: &mut [u64])
    ensures { Leaves (to_utf8 units.now) [] (text.old ∷ []) (text.new ∷ []) answer.old answer.new }
{
    capi::xmf_utf16_to_utf8(units, text, answer);
}

// Converts UTF-8 into UTF-16, high byte first. Answer: bytes written.
#[unsafe(no_mangle)]
pub extern "C" fn xmf_utf8_to_utf16(text: &[u8], units: &mut [u8], answer: &mut [u64])
    ensures { Leaves (to_utf16 text.now) [] (units.old ∷ []) (units.new ∷ []) answer.old answer.new }
{
    capi::xmf_utf8_to_utf16(text, units, answer);
}

// Moves a sheet to the other edition. Answer: bytes written.
#[unsafe(no_mangle)]
pub extern "C" fn xmf_move_sheet(sheet: &[u8], out: &mut [u8], answer: &mut [u64])
    ensures { Leaves (move_sheet sheet.now) [] (out.old ∷ []) (out.new ∷ []) answer.old answer.new }
{
    capi::xmf_move_sheet(sheet, out, answer);
}

// Counts the frames of an ID3v2.4 tag. Answer: how many there are. It walks what it is given, hidden contents too, and stands outside demand 3.
#[unsafe(no_mangle)]
pub extern "C" fn xmf_id3_count(tag: &[u8], answer: &mut [u64])
    ensures { Leaves (count_frames tag.now) [] [] [] answer.old answer.new }
{
    capi::xmf_id3_count(tag, answer);
}

// Gives the tag's frame of a number, from 0 in file order. Answer: the name's four bytes as one number, the first one highest; its contents' place in the tag, and length.
#[unsafe(no_mangle)]
pub extern "C" fn xmf_id3_frame(tag: &[u8], number: usize, answer: &mut [u64])
    ensures { Leaves (tag_frame tag.now number) [] [] [] answer.old answer.new }
{
    capi::xmf_id3_frame(tag, number, answer);
}

// Puts a sheet on a shelf under a desk, a call and a boat. The cards are words, four a card: desk, call, boat, length. Answer: no value.
#[unsafe(no_mangle)]
pub extern "C" fn xmf_shelf_put(
    cards: &mut [u64],
    text: &mut [u8],
    desk: u64,
    call: u64,
    boat: u64,
    sheet: &[u8],
    answer: &mut [u64],
)
    ensures { LeavesShelf (putting (label desk call boat) sheet.now) cards.old cards.new text.old text.new answer.old answer.new }
{
    capi::xmf_shelf_put(cards, text, desk, call, boat, sheet, answer);
}

// Gets a sheet from a shelf. Answer: its length in bytes.
#[unsafe(no_mangle)]
pub extern "C" fn xmf_shelf_get(
    cards: &[u64],
    text: &[u8],
    desk: u64,
    call: u64,
    boat: u64,
    out: &mut [u8],
    answer: &mut [u64],
)
    ensures { LeavesSheet (label desk call boat) cards.now text.now out.old out.new answer.old answer.new }
{
    capi::xmf_shelf_get(cards, text, desk, call, boat, out, answer);
}

// Drops a sheet from a shelf: its card and its part of the text are cleared. Answer: no value.
#[unsafe(no_mangle)]
pub extern "C" fn xmf_shelf_drop(
    cards: &mut [u64],
    text: &mut [u8],
    desk: u64,
    call: u64,
    boat: u64,
    answer: &mut [u64],
)
    ensures { LeavesShelf (dropping (label desk call boat)) cards.old cards.new text.old text.new answer.old answer.new }
{
    capi::xmf_shelf_drop(cards, text, desk, call, boat, answer);
}
