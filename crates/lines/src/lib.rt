// A line a name: its number, DIFF or DUP with the distance, then each token as written.
#![tactic(auto)]

ghost use Rattle.std.specs.Prelude.{◌≡◌, true, ◌++◌, ◌≤◌, length};
ghost use Rattle.digits.specs.Digits.{printed};
ghost use Rattle.classes.specs.Classes.{class_table};
ghost use Rattle.choices.specs.Choices.{choices_of};
ghost use Rattle.inputs.specs.Inputs.{names_of, ended};
ghost use Rattle.texts.specs.Words.{diff_word};
ghost use Rattle.pages.specs.Page.{page, said, HasRoom};
ghost use Rattle.lines.specs.Lines.{tokens_text, name_text, line_of, lines_of};

use choices::Choice;
use distances::Reference;
use spans::{Distance, Position};

// The tokens of a name and END; the earlier name is split again in step.
fn put_tokens(out: &mut [u8], at: usize, table: &[u8; 256], before: &[u8], name: &[u8]) -> usize
    requires table_value { table.now ≡ class_table }
    requires has_room { HasRoom (tokens_text name.now (choices_of before.now name.now)) (page out.old at) }
    ensures { page out.new result ≡ said (tokens_text name.now (choices_of before.now name.now)) (page out.old at) }
{
    let mut next = at;
    let mut p: u32 = 1;
    let mut a: usize = 0;
    let mut b: usize = 0;
    // Not a `for`: where the next tokens of the two names start is found from where these end.
    while a < name.len() {
        let here = Position(p);
        let e = splitting::cut_at(table, name, here, a);
        let f = splitting::cut_at(table, before, here, b);
        let c = choices::choice_at(table, before, name, here, a, e, b, f);
        next = texts::put_choice(out, next, name, c);
        a = e.end;
        b = f.end;
        p += 1;
    }
    texts::put_choice(out, next, name, Choice::End)
}

fn put_diff(
    out: &mut [u8],
    at: usize,
    table: &[u8; 256],
    before: &[u8],
    name: &[u8],
    distance: Distance,
) -> usize
    requires table_value { table.now ≡ class_table }
    requires has_room { HasRoom ((diff_word ++ printed distance.0) ++ tokens_text name.now (choices_of before.now name.now)) (page out.old at) }
    ensures { page out.new result ≡ said ((diff_word ++ printed distance.0) ++ tokens_text name.now (choices_of before.now name.now)) (page out.old at) }
{
    let next = pages::put_labelled(out, at, b" DIFF ", distance.0);
    put_tokens(out, next, table, before, name)
}

fn put_name(
    out: &mut [u8],
    at: usize,
    table: &[u8; 256],
    n: u32,
    before: &[u8],
    name: &[u8],
) -> usize
    requires table_value { table.now ≡ class_table }
    requires has_room { HasRoom (name_text n before.now name.now) (page out.old at) }
    ensures { page out.new result ≡ said (name_text n before.now name.now) (page out.old at) }
{
    match references::reference_of(n, before, name) {
        Reference::Dup(d) => pages::put_labelled(out, at, b" DUP ", d.0),
        Reference::Diff(d) => put_diff(out, at, table, references::leans_on(n, before), name, d),
    }
}

fn put_line(
    out: &mut [u8],
    at: usize,
    table: &[u8; 256],
    n: u32,
    before: &[u8],
    name: &[u8],
) -> usize
    requires table_value { table.now ≡ class_table }
    requires has_room { HasRoom (line_of n before.now name.now) (page out.old at) }
    ensures { page out.new result ≡ said (line_of n before.now name.now) (page out.old at) }
{
    let next = pages::put_number(out, at, n);
    let last = put_name(out, next, table, n, before, name);
    pages::put(out, last, b"\n")
}

pub fn put_lines(out: &mut [u8], table: &[u8; 256], input: &[u8]) -> usize
    requires table_value { table.now ≡ class_table }
    requires input_value { (ended input.now ≡ true) × (length (names_of input.now) ≤ 65536) }
    requires has_room { HasRoom (lines_of (names_of input.now)) (page out.old 0) }
    ensures { page out.new result ≡ said (lines_of (names_of input.now)) (page out.old 0) }
{
    let mut at: usize = 0;
    let mut n: u32 = 0;
    let mut before: &[u8] = &[];
    let mut start: usize = 0;
    // Not a `for`: where the next name starts is found from where this one ends.
    while start < input.len() {
        let end = inputs::name_end(input, start);
        let name = &input[start..end];
        at = put_line(out, at, table, n, before, name);
        before = name;
        start = end + 1;
        n += 1;
    }
    at
}
