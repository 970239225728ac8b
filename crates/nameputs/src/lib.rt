// What each name puts into the spans, for whatever the pass does with it.
#![tactic(auto)]

ghost use Rattle.std.specs.Prelude.{◌≡◌, true, ◌≤◌, ◌<◌, ◌+◌, length};
ghost use Rattle.classes.specs.Classes.{class_table};
ghost use Rattle.numbering.specs.Types.{rules_of};
ghost use Rattle.laying.specs.Passes.{world, run_of, Roomy};
ghost use Rattle.inputs.specs.Inputs.{names_of, ended};
ghost use Rattle.nameputs.specs.NamePuts.{head_puts, diff_puts, name_puts, puts_of};
ghost use Rattle.block.specs.Streams.{stream_number};

use block::{Setting, Stream};
use distances::Reference;
use laying::Pass;
use spans::{Distance, Position};

// DUP or DIFF, by its number, and the distance in its stream.
fn put_head(
    pass: Pass,
    total: u32,
    directory: &mut [u32],
    bytes: &mut [u8],
    number: u8,
    stream: Stream,
    distance: Distance,
) -> u32
    requires roomy { Roomy pass (head_puts number (stream_number stream) distance.0) (world total directory.old bytes.old) }
    ensures { world result directory.new bytes.new ≡ run_of pass (head_puts number (stream_number stream) distance.0) (world total directory.old bytes.old) }
{
    let types = block::span_of(Position(0), Stream::Type);
    let next = laying::put_byte(pass, total, directory, bytes, types, number);
    let distances = block::span_of(Position(0), stream);
    laying::put_four(pass, next, directory, bytes, distances, distance.0)
}

fn put_diff(
    set: Setting,
    pass: Pass,
    total: u32,
    directory: &mut [u32],
    bytes: &mut [u8],
    table: &[u8; 256],
    before: &[u8],
    name: &[u8],
    distance: Distance,
) -> u32
    requires table_value { table.now ≡ class_table }
    requires roomy { Roomy pass (diff_puts (rules_of set) distance.0 before.now name.now) (world total directory.old bytes.old) }
    ensures { world result directory.new bytes.new ≡ run_of pass (diff_puts (rules_of set) distance.0 before.now name.now) (world total directory.old bytes.old) }
{
    let kind = set.kind;
    let number = numbering::diff_number(kind);
    let next = put_head(
        pass,
        total,
        directory,
        bytes,
        number,
        Stream::Diff,
        distance,
    );
    tokenputs::put_tokens(set, pass, next, directory, bytes, table, before, name)
}

fn put_name(
    set: Setting,
    pass: Pass,
    total: u32,
    directory: &mut [u32],
    bytes: &mut [u8],
    table: &[u8; 256],
    n: u32,
    before: &[u8],
    name: &[u8],
) -> u32
    requires table_value { table.now ≡ class_table }
    requires roomy { Roomy pass (name_puts (rules_of set) n before.now name.now) (world total directory.old bytes.old) }
    ensures { world result directory.new bytes.new ≡ run_of pass (name_puts (rules_of set) n before.now name.now) (world total directory.old bytes.old) }
{
    match references::reference_of(n, before, name) {
        Reference::Dup(d) => {
            let kind = set.kind;
            let number = numbering::dup_number(kind);
            put_head(pass, total, directory, bytes, number, Stream::Dup, d)
        }
        Reference::Diff(d) => put_diff(
            set,
            pass,
            total,
            directory,
            bytes,
            table,
            references::leans_on(n, before),
            name,
            d,
        ),
    }
}

// All names, and the bytes that they put.
pub fn put_names(
    set: Setting,
    pass: Pass,
    directory: &mut [u32],
    bytes: &mut [u8],
    table: &[u8; 256],
    input: &[u8],
) -> u32
    requires table_value { table.now ≡ class_table }
    requires input_value { (ended input.now ≡ true) × (length (names_of input.now) ≤ 65536) }
    requires roomy { Roomy pass (puts_of (rules_of set) (names_of input.now)) (world 0 directory.old bytes.old) }
    ensures { world result directory.new bytes.new ≡ run_of pass (puts_of (rules_of set) (names_of input.now)) (world 0 directory.old bytes.old) }
{
    let mut total: u32 = 0;
    let mut n: u32 = 0;
    let mut before: &[u8] = &[];
    let mut start: usize = 0;
    // Not a `for`: where the next name starts is found from where this one ends.
    while start < input.len() {
        let end = inputs::name_end(input, start);
        let name = &input[start..end];
        total = put_name(set, pass, total, directory, bytes, table, n, before, name);
        before = name;
        start = end + 1;
        n += 1;
    }
    total
}
