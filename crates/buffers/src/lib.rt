// Whether lent buffers are long enough, from the arities, the number of states and the buffers' lengths.

#![tactic(auto)]

ghost use Rattle.std.specs.Prelude.{◌≤◌, ◌≡◌, ◌&&◌, leb, length};
ghost use Rattle.meaning.specs.Lists.{All};
ghost use Rattle.meaning.specs.Cells.{cells};

// The most that a file needs: states, table cells, domain atoms, queries.
pub const STATES: usize = meaning::MOST_STATES;

pub const TABLES: usize = meaning::MOST_SYMBOLS as usize * STATES * STATES;

pub const MARKS: usize = meaning::MOST_PREDICATES as usize * STATES * STATES * STATES;

pub const VERDICTS: usize = meaning::MOST_QUERIES as usize;

// Whether each buffer of an analysis is long enough. The lengths are four parameters, since C lends the buffers one by one (`exports`), and this has one caller.
pub fn long_enough(
    symbols: &[u8],
    preds: &[u8],
    queries: u8,
    m: usize,
    states: usize,
    tables: usize,
    marks: usize,
    verdicts: usize,
) -> bool
    requires { (m ≤ 16) × (length symbols.now ≤ 32) × All (λ n. n ≤ 4) symbols.now × (length preds.now ≤ 32) × All (λ n. n ≤ 4) preds.now }
    ensures { result ≡ (leb m states && leb (cells m symbols.now) tables && leb (cells m preds.now) marks && leb queries verdicts) }
{
    m <= states && lent_enough(symbols, preds, m, tables, marks) && usize::from(queries) <= verdicts
}

// Whether each buffer of a sheet check is long enough.
pub fn lent_enough(symbols: &[u8], preds: &[u8], m: usize, tables: usize, marks: usize) -> bool
    requires { (m ≤ 16) × (length symbols.now ≤ 32) × All (λ n. n ≤ 4) symbols.now × (length preds.now ≤ 32) × All (λ n. n ≤ 4) preds.now }
    ensures { result ≡ (leb (cells m symbols.now) tables && leb (cells m preds.now) marks) }
{
    cells::cells_of(symbols, m) <= tables && cells::cells_of(preds, m) <= marks
}
