// Answers as words in a lent buffer, for C and Rust: refusal number (0: none), place, then the answer's values, and zeros; a short buffer gets what fits.
#![tactic(auto)]

ghost use Rattle.std.specs.Prelude.{◌≡◌, ◌∷◌, [], length, get_or};
ghost use Rattle.refusals.specs.Reasons.{number_of};
ghost use Rattle.refusals.specs.Told.{told};
ghost use Rattle.file.specs.Told as told_tree;
ghost use Rattle.find.specs.Told as told_find;
ghost use Rattle.resolve.specs.Told as told_resolve;
ghost use Rattle.account.specs.Told as told_account;
ghost use Rattle.account.specs.Told.{kind_words, total_words};
ghost use Rattle.mend.specs.Told as told_mend;
ghost use Rattle.mend.specs.Told.{size_words};
ghost use Rattle.id3.specs.Told as told_tag;
ghost use Rattle.shelf.specs.Told.{told_outcome};
ghost use Rattle.promises.specs.Promises.{saying, tree_values, item_values, resource_values, one_value, frame_values};
ghost use Rattle.promises.specs.Shelf.{no_value};
ghost use Rattle.words.specs.Fit.{fit, stored, totals_of};

use account::{Accounted, Kinds, Totals};
use cursor::Item;
use file::Tree;
use id3::TagFrame;
use refusals::Refusal;
use resolve::Resolved;

// Stores the words from the buffer's first word on, as many as fit.
fn put_front(buffer: &mut [u64], words: &[u64])
    ensures { buffer.new ≡ stored buffer.old words.now }
{
    let room = buffer.len();
    if words.len() <= room {
        room::store(buffer, 0, words);
    } else {
        room::store(buffer, 0, &words[0..room]);
    }
}

// Sets the buffer to the words, as many as fit, and zeros.
fn put_answer(answer: &mut [u64], words: &[u64])
    ensures { answer.new ≡ fit (length answer.old) words.now }
{
    answer.fill(0);
    put_front(answer, words);
}

// A refusal's number and place.
fn put_refusal(answer: &mut [u64], refusal: Refusal)
    ensures { answer.new ≡ fit (length answer.old) (number_of refusal.0 ∷ refusal.1 ∷ []) }
{
    put_answer(answer, &[refusal.0.number(), refusal.1 as u64]);
}

// The tree's version, nodes and item rows.
pub fn put_tree(answer: &mut [u64], said: Result<Tree, Refusal>)
    ensures { answer.new ≡ fit (length answer.old) (saying tree_values (told_tree.told said)) }
{
    match said {
        Err(refusal) => put_refusal(answer, refusal),
        Ok(t) => put_answer(answer, &[0, 0, t.version, t.nodes as u64, t.items as u64]),
    }
}

// The item row that was found, and its ten words.
pub fn put_found(answer: &mut [u64], said: Result<(usize, Item), Refusal>)
    ensures { answer.new ≡ fit (length answer.old) (saying item_values (told_find.told said)) }
{
    match said {
        Err(refusal) => put_refusal(answer, refusal),
        Ok((i, r)) => {
            let words = [
                0,
                0,
                i as u64,
                r.node,
                r.item,
                r.kind,
                r.field,
                r.name_length,
                r.version,
                r.declared,
                r.format,
                r.place,
                r.size,
            ];
            put_answer(answer, &words);
        }
    }
}

// The resource's place and length, its row, the references followed.
pub fn put_resolved(answer: &mut [u64], said: Result<Resolved, Refusal>)
    ensures { answer.new ≡ fit (length answer.old) (saying resource_values (told_resolve.told said)) }
{
    match said {
        Err(refusal) => put_refusal(answer, refusal),
        Ok(r) => {
            let words = [0, 0, r.place.0 as u64, r.size as u64, r.last as u64, r.hops];
            put_answer(answer, &words);
        }
    }
}

// A count, or a verdict.
pub fn put_number(answer: &mut [u64], said: Result<u64, Refusal>)
    ensures { answer.new ≡ fit (length answer.old) (saying one_value (told said)) }
{
    match said {
        Err(refusal) => put_refusal(answer, refusal),
        Ok(n) => put_answer(answer, &[0, 0, n]),
    }
}

// How many bytes or frames there are.
pub fn put_size(answer: &mut [u64], said: Result<usize, Refusal>)
    ensures { answer.new ≡ fit (length answer.old) (saying one_value (told said)) }
{
    put_number(answer, said.map(|n| n as u64));
}

// The nine counts.
pub fn put_accounted(answer: &mut [u64], said: Accounted)
    ensures { answer.new ≡ fit (length answer.old) (saying kind_words (told_account.told said)) }
{
    match said.kinds {
        Err(refusal) => put_refusal(answer, refusal),
        Ok(k) => {
            let words = [
                0,
                0,
                k.header as u64,
                k.nodes as u64,
                k.metadata as u64,
                k.visible as u64,
                k.hidden as u64,
                k.unpackers as u64,
                k.references as u64,
                k.inline as u64,
                k.rest as u64,
            ];
            put_answer(answer, &words);
        }
    }
}

// Stores totals in words, as many as fit.
pub fn put_totals(buffer: &mut [u64], t: Totals)
    ensures { buffer.new ≡ stored buffer.old (total_words t) }
{
    let k = t.kinds;
    let words = [
        t.files as u64,
        t.refused as u64,
        k.header as u64,
        k.nodes as u64,
        k.metadata as u64,
        k.visible as u64,
        k.hidden as u64,
        k.unpackers as u64,
        k.references as u64,
        k.inline as u64,
        k.rest as u64,
    ];
    put_front(buffer, &words);
}

// A word of a buffer, or 0 where it has none.
fn word_at(words: &[u64], i: usize) -> usize
    ensures { result ≡ get_or words.now i 0 }
{
    if i < words.len() {
        return words[i] as usize;
    }
    0
}

// The totals that a buffer holds.
pub fn read_totals(words: &[u64]) -> Totals
    ensures { result ≡ totals_of words.now }
{
    let files = word_at(words, 0);
    let refused = word_at(words, 1);
    let kinds = Kinds {
        header: word_at(words, 2),
        nodes: word_at(words, 3),
        metadata: word_at(words, 4),
        visible: word_at(words, 5),
        hidden: word_at(words, 6),
        unpackers: word_at(words, 7),
        references: word_at(words, 8),
        inline: word_at(words, 9),
        rest: word_at(words, 10),
    };
    Totals {
        files,
        refused,
        kinds,
    }
}

// The bytes of the copy, and of the lines.
pub fn put_mended(answer: &mut [u64], said: Result<(usize, usize), Refusal>)
    ensures { answer.new ≡ fit (length answer.old) (saying size_words (told_mend.told said)) }
{
    match said {
        Err(refusal) => put_refusal(answer, refusal),
        Ok((copy, lines)) => put_answer(answer, &[0, 0, copy as u64, lines as u64]),
    }
}

// A frame's name, and its contents' place and length.
pub fn put_frame(answer: &mut [u64], said: Result<TagFrame, Refusal>)
    ensures { answer.new ≡ fit (length answer.old) (saying frame_values (told_tag.frame_told said)) }
{
    match said {
        Err(refusal) => put_refusal(answer, refusal),
        Ok(x) => put_answer(answer, &[0, 0, x.name, x.place as u64, x.size as u64]),
    }
}

// No value: put and drop answer none.
pub fn put_outcome(answer: &mut [u64], said: Result<(), Refusal>)
    ensures { answer.new ≡ fit (length answer.old) (saying no_value (told_outcome said)) }
{
    match said {
        Err(refusal) => put_refusal(answer, refusal),
        Ok(()) => put_answer(answer, &[0, 0]),
    }
}
