// Lookup in a lent table whose keys rise, by halving, each search in at most 13 steps: every table has a row's key in its first two cells, so one search serves all. `header` is
// the number of cells before the first row, `width` that of a row.
#![tactic(auto)]

ghost use Rattle.std.specs.Prelude.{◌≡◌, ◌+◌, ◌<◌, length};
ghost use Rattle.rules.specs.Rows.{key_of};
ghost use Rattle.rules.specs.Keyed.{below, same};
ghost use Rattle.lookup.specs.Found.{found_told};
ghost use Rattle.lookup.specs.Sought.{sought_told};
ghost use Rattle.lookup.specs.Lookup.{Searchable, key_at, row_found, row_place, row_sought};

// "each search in at most 13 steps" (document 02, K6).
const MOST_STEPS: usize = 13;

// A key that is there: its row, the greatest suffix of its id, and the row where the id's next suffix belongs (document 02, K2).
#[derive(Clone, Copy)]
pub struct Present {
    pub row: usize,
    pub greatest: i64,
    pub next: usize,
}

// A key that is not: the row where it belongs, and the greatest suffix of its id or that it has none.
#[derive(Clone, Copy)]
pub struct Absent {
    pub place: usize,
    pub greatest: Option<i64>,
}

// Whether the first key comes before the second.
pub fn key_below(major: i64, minor: i64, major2: i64, minor2: i64) -> bool
    ensures { result ≡ below (key_of major minor) (key_of major2 minor2) }
{
    if major < major2 {
        return true;
    }
    if major != major2 {
        return false;
    }
    minor < minor2
}

pub fn key_same(major: i64, minor: i64, major2: i64, minor2: i64) -> bool
    ensures { result ≡ same (key_of major minor) (key_of major2 minor2) }
{
    if major != major2 {
        return false;
    }
    minor == minor2
}

// Whether the first key comes before the second, without a jump.
fn comes_before(major: i64, minor: i64, major2: i64, minor2: i64) -> bool
    ensures { result ≡ below (key_of major minor) (key_of major2 minor2) }
{
    (major < major2) | ((major == major2) & (minor < minor2))
}

// Whether a key comes before that of the row at a cell. Among many rows neither answer is likelier, and the text has no jump. Among few the processor foresees it, and a jump is
// faster: the second figure is read only where it decides, so that the compiler makes one.
fn before_row(cells: &[i64], at: usize, major: i64, minor: i64, few: bool) -> bool
    requires { at + 1 < length cells.now }
    ensures { result ≡ below (key_of major minor) (key_at cells.now at) }
{
    let first = cells[at];
    if few {
        if major < first {
            return true;
        }
        if major != first {
            return false;
        }
        return minor < cells[at + 1];
    }
    comes_before(major, minor, first, cells[at + 1])
}

// How many rows stand before the place where a key belongs, by halving: the last row of the first half of those left says in which half the place lies, and as many rows are left as
// the second half has. Each turn of the loop is a step and takes one off the fuel. The check refuses a subtraction that may wrap, so the loop turns at most 13 times (specs/Steps.antt).
pub fn place_of(
    cells: &[i64],
    header: usize,
    width: usize,
    count: usize,
    major: i64,
    minor: i64,
) -> usize
    requires { Searchable header width count cells.now }
    ensures { result ≡ row_place header width (key_of major minor) count cells.now }
{
    let few = count <= 16;
    let mut low = 0;
    let mut left = count;
    let mut fuel: usize = MOST_STEPS;
    while 0 < left {
        let half = left / 2;
        let past = low + (left - half);
        let at = header + (past - 1) * width;
        if !before_row(cells, at, major, minor, few) {
            low = past;
        }
        left = half;
        fuel -= 1;
    }
    low
}

// The row with a key, from 0; or that there is none, with the row where the key belongs, as `binary_search` of a slice answers.
pub fn find_row(
    cells: &[i64],
    header: usize,
    width: usize,
    count: usize,
    major: i64,
    minor: i64,
) -> Result<usize, usize>
    requires { Searchable header width count cells.now }
    ensures { found_told result ≡ row_found header width (key_of major minor) count cells.now }
{
    let place = place_of(cells, header, width, count, major, minor);
    if place == 0 {
        return Err(place);
    }
    let row = place - 1;
    let at = header + row * width;
    if key_same(cells[at], cells[at + 1], major, minor) {
        Ok(row)
    } else {
        Err(place)
    }
}

// The row that a second figure has where they rise one by one up to the greatest, in the last of `end` rows.
fn row_by_distance(end: usize, greatest: i64, minor: i64) -> usize
    requires { 0 < end }
    ensures { result < end }
{
    if minor < 0 {
        return end - 1;
    }
    if greatest < minor {
        return end - 1;
    }
    let distance = greatest as usize - minor as usize;
    if end <= distance {
        return end - 1;
    }
    end - 1 - distance
}

// The row with a key among the first `end` rows. Tables that the book has made have an id's suffixes one by one, so the first look finds it; in others it is searched.
pub fn find_by_distance(
    cells: &[i64],
    header: usize,
    width: usize,
    end: usize,
    greatest: i64,
    major: i64,
    minor: i64,
) -> Result<usize, usize>
    requires { Searchable header width end cells.now × (0 < end) }
    ensures { found_told result ≡ row_found header width (key_of major minor) end cells.now }
{
    let row = row_by_distance(end, greatest, minor);
    let at = header + row * width;
    if key_same(cells[at], cells[at + 1], major, minor) {
        return Ok(row);
    }
    find_row(cells, header, width, end, major, minor)
}

// The lookup. The rows of an id end where the greatest key that it can have belongs; the last of them has its greatest suffix, and the key is among those before.
pub fn look_up(
    cells: &[i64],
    header: usize,
    width: usize,
    count: usize,
    major: i64,
    minor: i64,
) -> Result<Present, Absent>
    requires { Searchable header width count cells.now }
    ensures { sought_told result ≡ row_sought header width (key_of major minor) count cells.now }
{
    let end = place_of(
        cells,
        header,
        width,
        count,
        major,
        9_223_372_036_854_775_807,
    );
    if end < count {
        // Read for its range alone: no second figure is above the greatest i64, so from here on the first figure is greater.
        let second = cells[header + end * width + 1];
    }
    if end == 0 {
        return Err(Absent {
            place: 0,
            greatest: None,
        });
    }
    let last = header + (end - 1) * width;
    let greatest = cells[last + 1];
    let first = cells[last];
    if first != major {
        let greatest = None;
        return Err(Absent {
            place: end,
            greatest,
        });
    }
    match find_by_distance(cells, header, width, end, greatest, major, minor) {
        Ok(row) => Ok(Present {
            row,
            greatest,
            next: end,
        }),
        Err(at) => Err(Absent {
            place: at,
            greatest: Some(greatest),
        }),
    }
}
