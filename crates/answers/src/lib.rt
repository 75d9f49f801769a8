// The lines of replies as text: a kind and a number, or a refusal.
#![tactic(auto)]

ghost use Rattle.std.specs.Prelude.{◌≡◌, ◌+◌, ◌≤◌, length};
ghost use Rattle.subdivision.specs.Lists.{over};
ghost use Rattle.frames.specs.Placing.{numbered, refused_text, answer_text};

use subdivision::{Answer, Refused};
use texts::Text;

// Writes the line of a reply over a text from its place on, and goes to where it ends.
pub fn put_reply(reply: Result<Answer, Refused>, text: &mut Text)
    requires { text.old.at + 30 ≤ length text.old.bytes.now }
    ensures value { (text.new.at ≡ text.old.at + length (answer_text reply)) × (length (answer_text reply) ≤ 30) }
    ensures text_after { text.new.bytes.now ≡ over (answer_text reply) text.old.bytes.now text.old.at }
    ensures same_text { text.new.bytes.ghost_name ≡ text.old.bytes.ghost_name }
{
    match reply {
        Ok(answer) => put_answer(answer, text),
        Err(refusal) => put_refusal(refusal.number, refusal.item as u64, text),
    }
}

// Writes the line of an answer over a text from its place on, and goes to where it ends.
pub fn put_answer(answer: Answer, text: &mut Text)
    requires { text.old.at + 30 ≤ length text.old.bytes.now }
    ensures value { (text.new.at ≡ text.old.at + length (answer_text (Ok answer))) × (length (answer_text (Ok answer)) ≤ 30) }
    ensures text_after { text.new.bytes.now ≡ over (answer_text (Ok answer)) text.old.bytes.now text.old.at }
    ensures same_text { text.new.bytes.ghost_name ≡ text.old.bytes.ghost_name }
{
    match answer {
        Answer::Vertex(v) => put_numbered(b"vertex ", v as u64, text),
        Answer::Edge(e) => put_numbered(b"edge ", e as u64, text),
        Answer::Zone(z) => put_numbered(b"zone ", z as u64, text),
    }
}

// Writes the line of a refusal over a text from its place on, and goes to where it ends.
pub fn put_refusal(number: u32, item: u64, text: &mut Text)
    requires { text.old.at + length (refused_text number item) ≤ length text.old.bytes.now }
    ensures value { text.new.at ≡ text.old.at + length (refused_text number item) }
    ensures text_after { text.new.bytes.now ≡ over (refused_text number item) text.old.bytes.now text.old.at }
    ensures same_text { text.new.bytes.ghost_name ≡ text.old.bytes.ghost_name }
{
    text.put_bytes(b"refused ");
    text.put_decimal(number as u64);
    put_numbered(b" ", item, text);
}

// Writes a word, a number and a newline over a text from its place on, and goes to where they end.
fn put_numbered(word: &[u8], n: u64, text: &mut Text)
    requires { text.old.at + length (numbered word.now n) ≤ length text.old.bytes.now }
    ensures value { text.new.at ≡ text.old.at + length (numbered word.now n) }
    ensures text_after { text.new.bytes.now ≡ over (numbered word.now n) text.old.bytes.now text.old.at }
    ensures same_text { text.new.bytes.ghost_name ≡ text.old.bytes.ghost_name }
{
    text.put_bytes(word);
    text.put_decimal(n);
    text.put_bytes(b"\n");
}
