// The adaptive model's table: its start, and what one symbol that was seen does to it.
// The functions work on as many places as the table has; whoever calls them lends no more.
#![tactic(auto)]

ghost use Rattle.std.specs.Prelude.{◌≡◌, ℕ, ◌≤◌, ◌<◌, ◌^◌, List, length};
ghost use Rattle.model.specs.Model.{model, places, started, place_of, halves, sum, settled, raised, step_at};
ghost use Rattle.model.specs.Sound.{Sound};

// The symbols by their places, the frequency of each, and the total. A table has some of the places, from the first on.
#[derive(Drop)]
pub struct Model {
    pub symbols: [u32; 256],
    pub frequencies: [u32; 256],
    pub total: u32,
}

impl Model {
    // A symbol's frequency and the total grow by it.
    pub const GROWTH: u32 = 8;
    // A total above it has every frequency halved.
    pub const MOST: u32 = 65504;
    // Table sizes are 1 to as many.
    pub const PLACES: u32 = 256;
}

pub fn start(symbols: &mut [u32], frequencies: &mut [u32])
    requires { (length symbols.old ≤ places) × (length frequencies.old ≡ length symbols.old) }
    ensures { model symbols.new frequencies.new (length symbols.old) ≡ started (length symbols.old) }
{
    for (at, symbol) in symbols.iter_mut().enumerate() {
        *symbol = at as u32;
    }
    frequencies.fill(1);
}

// As many as there are places, if the symbol stands at none: not an Option, since the definition gives every symbol a place.
pub fn place_of(symbols: &[u32], symbol: u8) -> usize
    ensures { result ≡ place_of symbols.now symbol }
{
    let sought = u32::from(symbol);
    symbols
        .iter()
        .position(|s| *s == sought)
        .unwrap_or(symbols.len())
}

// Each less its half rounded down. The answer is the sum of what they become.
fn halve(frequencies: &mut [u32]) -> u32
    requires { sum frequencies.old < 2 ^ 32 }
    ensures { (frequencies.new ≡ halves frequencies.old) × (result ≡ sum (halves frequencies.old)) }
{
    let mut total = 0;
    for frequency in frequencies.iter_mut() {
        *frequency -= *frequency / 2;
        total += *frequency;
    }
    total
}

// The symbol at a place exchanged with its neighbour towards place 0, if its frequency is the larger one.
fn move_up(symbols: &mut [u32], frequencies: &mut [u32], at: usize)
    requires { (at < length symbols.old) × (length frequencies.old ≡ length symbols.old) }
    ensures { (t : ℕ) → model symbols.new frequencies.new t ≡ raised (model symbols.old frequencies.old t) at }
{
    if at == 0 {
        return;
    }
    let up = at - 1;
    if frequencies[at] <= frequencies[up] {
        return;
    }
    symbols.swap(at, up);
    frequencies.swap(at, up);
}

// One symbol seen, at its place: it grows, all are halved if the total is above the most that it may be, it moves up.
pub fn step(symbols: &mut [u32], frequencies: &mut [u32], total: &mut u32, at: usize)
    requires { Sound (length symbols.old) (model symbols.old frequencies.old total.old) × (at < length symbols.old) }
    ensures { model symbols.new frequencies.new total.new ≡ step_at (model symbols.old frequencies.old total.old) at }
{
    frequencies[at] += Model::GROWTH;
    *total += Model::GROWTH;
    if *total > Model::MOST {
        *total = halve(frequencies);
    }
    move_up(symbols, frequencies, at);
}
