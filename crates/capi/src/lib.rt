// The questions, the conversions of text and the shelf for C and Rust. Each slice passes as a pointer and a length. The last one is a lent buffer of words for the answer: refusal
// number (0: none), place, then the answer's values, and zeros; a short buffer gets what fits.
#![tactic(auto)]

ghost use Rattle.std.specs.Prelude.{◌∷◌, []};
ghost use Rattle.shelf.specs.Shelf.{label};
ghost use Rattle.shelf.specs.Runs.{putting, dropping};
ghost use Rattle.promises.specs.Promises.{read_tree, find_item, find_own, resolve_row, copy_resource, count_for, judge_mobile, write_sheet, write_sheet2, correct_title, mend_header, to_utf8, to_utf16, move_sheet, count_frames, tag_frame};
ghost use Rattle.capi.specs.Leaves.{asked, Leaves, LeavesTotals, LeavesShelf, LeavesSheet};

use shelf::Label;

// Reads the tree. Answer: version (100, 101, 200), nodes, item rows.
pub fn xmf_read_tree(file: &[u8], nodes: &mut [u64], items: &mut [u64], answer: &mut [u64])
    ensures { Leaves read_tree file.now (nodes.old ∷ items.old ∷ []) (nodes.new ∷ items.new ∷ []) answer.old answer.new }
{
    words::put_tree(answer, file::read_tree(file, nodes, items));
}

// Finds the nearest item of a field, from a node row: of the standard number (kind 0), or of the custom name (any other kind).
pub fn xmf_find(
    file: &[u8],
    nodes: &mut [u64],
    items: &mut [u64],
    row: usize,
    kind: u64,
    number: u64,
    name: &[u8],
    answer: &mut [u64],
)
    ensures { Leaves (find_item (asked kind number name.now) row) file.now (nodes.old ∷ items.old ∷ []) (nodes.new ∷ items.new ∷ []) answer.old answer.new }
{
    if kind == 0 {
        words::put_found(answer, find::find_standard(file, nodes, items, row, number));
    } else {
        words::put_found(answer, find::find_custom(file, nodes, items, row, name));
    }
}

// Finds a node row's own item of a field: of the standard number (kind 0), or of the custom name (any other kind).
pub fn xmf_find_own(
    file: &[u8],
    nodes: &mut [u64],
    items: &mut [u64],
    row: usize,
    kind: u64,
    number: u64,
    name: &[u8],
    answer: &mut [u64],
)
    ensures { Leaves (find_own (asked kind number name.now) row) file.now (nodes.old ∷ items.old ∷ []) (nodes.new ∷ items.new ∷ []) answer.old answer.new }
{
    if kind == 0 {
        words::put_found(
            answer,
            find::find_own_standard(file, nodes, items, row, number),
        );
    } else {
        words::put_found(answer, find::find_own_custom(file, nodes, items, row, name));
    }
}

// Resolves a node row's resource. Answer: place, length, row, references followed.
pub fn xmf_resolve(
    file: &[u8],
    nodes: &mut [u64],
    items: &mut [u64],
    row: usize,
    answer: &mut [u64],
)
    ensures { Leaves (resolve_row row) file.now (nodes.old ∷ items.old ∷ []) (nodes.new ∷ items.new ∷ []) answer.old answer.new }
{
    words::put_resolved(answer, resolve::resolve(file, nodes, items, row));
}

// Resolves a node row's resource and copies it. Answer: as for xmf_resolve. The bytes may be hidden ones, which a reference 2 leads to.
pub fn xmf_resource(
    file: &[u8],
    nodes: &mut [u64],
    items: &mut [u64],
    row: usize,
    out: &mut [u8],
    answer: &mut [u64],
)
    ensures { Leaves (copy_resource row) file.now (nodes.old ∷ items.old ∷ out.old ∷ []) (nodes.new ∷ items.new ∷ out.new ∷ []) answer.old answer.new }
{
    words::put_resolved(answer, resolve::copy_resource(file, nodes, items, row, out));
}

// Reads the content description that is the item row. Answer: its count for a channel and a resource, both numbered from 0.
pub fn xmf_voice_count(
    file: &[u8],
    nodes: &mut [u64],
    items: &mut [u64],
    item_row: usize,
    channel: u64,
    resource: u64,
    answer: &mut [u64],
)
    ensures { Leaves (count_for item_row channel resource) file.now (nodes.old ∷ items.old ∷ []) (nodes.new ∷ items.new ∷ []) answer.old answer.new }
{
    words::put_number(
        answer,
        description::count_for(file, nodes, items, item_row, channel, resource),
    );
}

// Judges Mobile XMF. Answer: the verdict.
pub fn xmf_judge(file: &[u8], nodes: &mut [u64], items: &mut [u64], answer: &mut [u64])
    ensures { Leaves judge_mobile file.now (nodes.old ∷ items.old ∷ []) (nodes.new ∷ items.new ∷ []) answer.old answer.new }
{
    words::put_number(answer, mobile::judge(file, nodes, items));
}

// Counts the file's bytes by kind. Answer: the nine counts. `totals` goes in and comes back: files, refused, nine sums; words that are missing are 0 and are not stored.
pub fn xmf_account(
    file: &[u8],
    nodes: &mut [u64],
    items: &mut [u64],
    totals: &mut [u64],
    answer: &mut [u64],
)
    ensures { LeavesTotals file.now nodes.old items.old nodes.new items.new totals.old totals.new answer.old answer.new }
{
    let before = words::read_totals(totals);
    let said = account::account(file, nodes, items, before);
    words::put_totals(totals, said.totals);
    words::put_accounted(answer, said);
}

// Writes the support sheet. Answer: bytes written.
pub fn xmf_write_sheet(
    file: &[u8],
    nodes: &mut [u64],
    items: &mut [u64],
    sheet: &mut [u8],
    answer: &mut [u64],
)
    ensures { Leaves write_sheet file.now (nodes.old ∷ items.old ∷ sheet.old ∷ []) (nodes.new ∷ items.new ∷ sheet.new ∷ []) answer.old answer.new }
{
    words::put_size(answer, sheet::write_sheet(file, nodes, items, sheet));
}

// Writes the support sheet in its second edition. Answer: bytes written.
pub fn xmf_write_sheet2(
    file: &[u8],
    nodes: &mut [u64],
    items: &mut [u64],
    sheet: &mut [u8],
    answer: &mut [u64],
)
    ensures { Leaves write_sheet2 file.now (nodes.old ∷ items.old ∷ sheet.old ∷ []) (nodes.new ∷ items.new ∷ sheet.new ∷ []) answer.old answer.new }
{
    words::put_size(answer, sheet::write_sheet2(file, nodes, items, sheet));
}

// Writes the file anew with a title as the data of an item row. Answer: bytes written. The new file holds the hidden bytes of the old one.
pub fn xmf_correct_title(
    file: &[u8],
    nodes: &mut [u64],
    items: &mut [u64],
    row: usize,
    title: &[u8],
    out: &mut [u8],
    answer: &mut [u64],
)
    ensures { Leaves (correct_title row title.now) file.now (nodes.old ∷ items.old ∷ out.old ∷ []) (nodes.new ∷ items.new ∷ out.new ∷ []) answer.old answer.new }
{
    words::put_size(
        answer,
        title::correct_title(file, nodes, items, row, title, out),
    );
}

// Copies the file with FileLength and TreeEnd set right, in the bytes that they have, and writes a line for each that changed. Answer: bytes of the copy, bytes of the
// lines. The copy holds the hidden bytes of the file.
pub fn xmf_mend(
    file: &[u8],
    nodes: &mut [u64],
    items: &mut [u64],
    copy: &mut [u8],
    lines: &mut [u8],
    answer: &mut [u64],
)
    ensures { Leaves mend_header file.now (nodes.old ∷ items.old ∷ copy.old ∷ lines.old ∷ [])
        (nodes.new ∷ items.new ∷ copy.new ∷ lines.new ∷ []) answer.old answer.new }
{
    words::put_mended(answer, mend::mend(file, nodes, items, copy, lines));
}

// Converts UTF-16, high byte first, into UTF-8; one leading mark FEFF is dropped. Answer: bytes written. It converts what it is given, hidden text too, and
// stands outside demand 3.
pub fn xmf_utf16_to_utf8(units: &[u8], text: &mut [u8], answer: &mut [u64])
    ensures { Leaves (to_utf8 units.now) [] (text.old ∷ []) (text.new ∷ []) answer.old answer.new }
{
    words::put_size(answer, utf16::to_utf8(units, text));
}

// Converts UTF-8 into UTF-16, high byte first. Answer: bytes written.
pub fn xmf_utf8_to_utf16(text: &[u8], units: &mut [u8], answer: &mut [u64])
    ensures { Leaves (to_utf16 text.now) [] (units.old ∷ []) (units.new ∷ []) answer.old answer.new }
{
    words::put_size(answer, utf16::to_utf16(text, units));
}

// Moves a sheet to the other edition. Answer: bytes written.
pub fn xmf_move_sheet(sheet: &[u8], out: &mut [u8], answer: &mut [u64])
    ensures { Leaves (move_sheet sheet.now) [] (out.old ∷ []) (out.new ∷ []) answer.old answer.new }
{
    words::put_size(answer, mover::move_sheet(sheet, out));
}

// Counts the frames of an ID3v2.4 tag. Answer: how many there are. It walks what it is given, hidden contents too, and stands outside demand 3.
pub fn xmf_id3_count(tag: &[u8], answer: &mut [u64])
    ensures { Leaves (count_frames tag.now) [] [] [] answer.old answer.new }
{
    words::put_size(answer, id3::frame_count(tag));
}

// Gives the tag's frame of a number, from 0 in file order. Answer: the name's four bytes as one number, the first one highest; its contents' place in the tag, and length.
pub fn xmf_id3_frame(tag: &[u8], number: usize, answer: &mut [u64])
    ensures { Leaves (tag_frame tag.now number) [] [] [] answer.old answer.new }
{
    words::put_frame(answer, id3::frame(tag, number));
}

// Puts a sheet on a shelf under a desk, a call and a boat. The cards are words, four a card: desk, call, boat, length. Answer: no value.
pub fn xmf_shelf_put(
    cards: &mut [u64],
    text: &mut [u8],
    desk: u64,
    call: u64,
    boat: u64,
    sheet: &[u8],
    answer: &mut [u64],
)
    ensures { LeavesShelf (putting (label desk call boat) sheet.now) cards.old cards.new text.old text.new answer.old answer.new }
{
    words::put_outcome(
        answer,
        shelf::put_words(cards, text, Label { desk, call, boat }, sheet),
    );
}

// Gets a sheet from a shelf. Answer: its length in bytes.
pub fn xmf_shelf_get(
    cards: &[u64],
    text: &[u8],
    desk: u64,
    call: u64,
    boat: u64,
    out: &mut [u8],
    answer: &mut [u64],
)
    ensures { LeavesSheet (label desk call boat) cards.now text.now out.old out.new answer.old answer.new }
{
    words::put_size(
        answer,
        shelf::get_words(cards, text, Label { desk, call, boat }, out),
    );
}

// Drops a sheet from a shelf: its card and its part of the text are cleared. Answer: no value.
pub fn xmf_shelf_drop(
    cards: &mut [u64],
    text: &mut [u8],
    desk: u64,
    call: u64,
    boat: u64,
    answer: &mut [u64],
)
    ensures { LeavesShelf (dropping (label desk call boat)) cards.old cards.new text.old text.new answer.old answer.new }
{
    words::put_outcome(
        answer,
        shelf::drop_words(cards, text, Label { desk, call, boat }),
    );
}
