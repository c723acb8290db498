// Attributes: what stands in a start tag behind its name, up to `>` or `/>`.
// A new name is compared with the earlier ones where they stand. The places of the attributes are put into a table where one is lent.
ghost use Rattle.std.specs.Prelude.{◌≡◌, true, ◌&&◌, not, ◌+◌, ◌-◌, ◌*◌, ◌≤◌, ◌<◌, length, take, drop, get_or, leb};
ghost use Rattle.grammar.specs.Bytes.{same};
ghost use Rattle.grammar.specs.Limits.{NAME, ATTRIBUTES};
ghost use Rattle.grammar.specs.Name.{name_start, name_byte};
ghost use Rattle.tags.specs.Names.{Part, Run, Named, Lacks, Found, Stood, Repeats, mark_of, Ready, Meets, NameTo, FreshSays};
ghost use Rattle.tags.specs.Inner.{Opened, AttributeSays, PutRow, EndSays};
ghost use Rattle.tags.specs.Heads.{HeadSays};

use grammar::Limits;
use pieces::values::{is_quote, value};
use scan::{Step, Stop};

/// How many numbers a tag's table of places has: four for each attribute that it may have.
pub const PLACES: usize = 4 * Limits::ATTRIBUTES;

/// Where the attributes of a tag stand, counted from the place behind the tag's name: from where to where its name, and its raw value.
// Numbers, no structs: `reader::outline` is lent them by its callers, and `table_only` speaks of numbers.
pub type Places = [u16; PLACES];

/// A tag behind its name: whether it is an empty one, how many attributes it has, and where it ends.
#[derive(Clone, Copy)]
pub struct Tag {
    pub empty: bool,
    pub count: usize,
    pub end: usize,
}

// Where fewer than eight bytes in a row are not q. In a part of constant length `contains` is one test without a branch.
fn clear_eights(s: &[u8], at: usize, stop: usize, q: u8) -> usize
    requires { (at ≤ stop) × (stop ≤ length s.now) }
    ensures { (at ≤ result) × (result ≤ stop) × Lacks q s.now at (result - at) }
{
    let mut i = at;
    // Counted by hand: the answer is how far the steps of eight came, which a `for` over them does not hand out.
    while 8 <= stop - i && !s[i..i + 8].contains(&q) {
        i += 8;
    }
    i
}

// The first q from `at` on, before `stop`; `stop` if there is none.
fn next(s: &[u8], at: usize, stop: usize, q: u8) -> usize
    requires { (at ≤ stop) × (stop ≤ length s.now) }
    ensures { Found q s.now at stop result }
{
    for i in clear_eights(s, at, stop, q)..stop {
        if s[i] == q {
            return i;
        }
    }
    stop
}

// Whether the n bytes at b are the whole name that stands at a.
fn stands_at(s: &[u8], a: usize, b: usize, n: usize) -> bool
    requires { (a < b) × (0 < n) × (b + n ≤ length s.now) }
    ensures { result ≡ not (name_byte (get_or s.now (a + n) 0)) && same (take n (drop a s.now)) (take n (drop b s.now)) }
{
    if s[a] != s[b] {
        return false;
    }
    if scan::is_name_byte(s[a + n]) {
        return false;
    }
    s[a..a + n] == s[b..b + n]
}

// Whether the name from `at` up to `to` is one of those of the attributes that stand from `first` on. They are known to be right: a name ends before
// the next `=`, and a value at the next quote like its first.
fn again(s: &[u8], first: usize, at: usize, to: usize) -> bool
    requires { Stood s.now first at × (at < to) × (to ≤ length s.now) × Named s.now at (to - at) }
    ensures { Repeats s.now first at to result }
{
    let mut i = first;
    // By hand: the next place is what was read there.
    loop {
        let j = scan::skip_glue(s, i);
        if at <= j {
            return false;
        }
        if stands_at(s, j, at, to - at) {
            return true;
        }
        let e = next(s, j, at, b'=');
        let a = scan::skip_glue(s, e + 1);
        let f = next(s, a + 1, at, s[a]);
        i = f + 1;
    }
}

fn worth(b: u8) -> usize
    ensures { (result ≡ b) × (result < 256) }
{
    b as usize
}

// The last but one of n places; the first, if there is none.
fn last_but_one(n: usize) -> usize
    ensures { result ≡ n - 2 }
{
    if n < 2 {
        return 0;
    }
    n - 2
}

// The mark of the name that stands from `from` to `to`.
fn mark(s: &[u8], from: usize, to: usize) -> usize
    requires { (from < to) × (to ≤ length s.now) }
    ensures { (result < 64) × (result ≡ mark_of (take (to - from) (drop from s.now))) }
{
    let n = to - from;
    let last = worth(s[to - 1]);
    let mid = worth(s[from + n / 2]);
    let other = worth(s[from + last_but_one(n)]);
    (n % 64 + 5 * last + 3 * mid + 4 * other) % 64
}

// The same as again, and the name is marked: one whose mark is not set is none of them.
fn met(s: &[u8], first: usize, at: usize, to: usize, marks: &mut [u8; 64]) -> bool
    requires { Ready s.now first marks.old at × (at < to) × (to ≤ length s.now) × Named s.now at (to - at) }
    ensures { Meets s.now first at to marks.old marks.new result }
{
    let h = mark(s, at, to);
    if marks[h] == 0 {
        marks[h] = 1;
        return false;
    }
    again(s, first, at, to)
}

// The places of the attribute n, as far as the table reaches.
fn put(table: &mut [u16], n: usize, name: usize, past: usize, value: usize, end: usize)
    requires { (n < ATTRIBUTES) × (name ≤ end) × (past ≤ end) × (value ≤ end) }
    ensures { PutRow table.old table.new n name past value end }
{
    if table.len() <= 4 * n + 3 {
        return;
    }
    if 65535 < end {
        return;
    }
    table[4 * n] = name as u16;
    table[4 * n + 1] = past as u16;
    table[4 * n + 2] = value as u16;
    table[4 * n + 3] = end as u16;
}

// Where a name at `at` lacks one byte to be full, or the input ends.
fn name_stop(len: usize, at: usize) -> usize
    requires { at < len }
    ensures { (result ≤ len) × (result ≤ at + (NAME - 1)) × (result < len → result ≡ at + (NAME - 1)) × (at + 1 ≤ result) }
{
    if len - at < Limits::NAME {
        return len;
    }
    at + (Limits::NAME - 1)
}

// 1 if b is a letter, else 0: a number, so that no branch is guessed.
fn lettered(b: u8) -> u8
    ensures small { result ≤ 1 }
    ensures one { result ≡ 1 → name_byte b ≡ true }
{
    (((64 < b) & (b < 91)) | ((96 < b) & (b < 123))) as u8
}

// Whether the eight bytes at i are letters.
fn eight_letters(s: &[u8], i: usize) -> bool
    requires { i + 8 ≤ length s.now }
    ensures { result ≡ true → Named s.now i 8 }
{
    let n = lettered(s[i])
        + lettered(s[i + 1])
        + lettered(s[i + 2])
        + lettered(s[i + 3])
        + lettered(s[i + 4])
        + lettered(s[i + 5])
        + lettered(s[i + 6])
        + lettered(s[i + 7]);
    n == 8
}

// Where a name has fewer than eight letters in a row before `stop`.
fn letter_eights(s: &[u8], at: usize, stop: usize) -> usize
    requires { (at < length s.now) × (name_start (get_or s.now at 0) ≡ true) × (stop ≤ length s.now) × (stop ≤ at + (NAME - 1)) × (at + 1 ≤ stop) }
    ensures { Part s.now at result × (result ≤ stop) }
{
    let mut i = at + 1;
    // Counted by hand: the answer is how far the steps of eight came, which a `for` over them does not hand out.
    while 8 <= stop - i {
        if !eight_letters(s, i) {
            return i;
        }
        i += 8;
    }
    i
}

// Whether b may stand in a name behind its first byte; small letters, which most are, go first.
fn is_in_name(b: u8) -> bool
    ensures { result ≡ name_byte b }
{
    if (96 < b) & (b < 123) {
        return true;
    }
    scan::is_name_byte(b)
}

// Where a name ends, or where it lacks one byte to be full.
fn name_run(s: &[u8], at: usize) -> usize
    requires { (at < length s.now) × (name_start (get_or s.now at 0) ≡ true) }
    ensures { Run s.now at result }
{
    let stop = name_stop(s.len(), at);
    let mut i = letter_eights(s, at, stop);
    while i < stop {
        if !is_in_name(s[i]) {
            return i;
        }
        i += 1;
    }
    i
}

// Where a name ends that runs up to i: behind i, if the byte there is its last one.
fn name_to(s: &[u8], i: usize) -> usize
    requires { i < length s.now }
    ensures { NameTo s.now i result }
{
    if scan::is_name_byte(s[i]) {
        return i + 1;
    }
    i
}

// A name that none of the attributes from `first` on has, up to the byte behind it. A full name that one has is dead at its last byte.
fn fresh(s: &[u8], first: usize, at: usize, marks: &mut [u8; 64]) -> Step
    requires { Ready s.now first marks.old at }
    ensures { FreshSays s.now first at marks.old marks.new result }
{
    let i = name_run(s, at);
    if s.len() <= i {
        return Err(Stop::Open);
    }
    let to = name_to(s, i);
    if met(s, first, at, to, &mut *marks) {
        return Err(Stop::Bad(i));
    }
    if to == i {
        return Ok(i);
    }
    if s.len() - i < 2 {
        return Err(Stop::Open);
    }
    if scan::is_name_byte(s[i + 1]) {
        return Err(Stop::Bad(i + 1));
    }
    Ok(i + 1)
}

// Behind an attribute's name, up to the first byte of its value.
fn opened(s: &[u8], at: usize) -> Step
    requires { at ≤ length s.now }
    ensures { Opened s.now at result }
{
    let i = scan::glue(s, at)?;
    let j = scan::byte(s, i, b'=')?;
    let k = scan::glue(s, j)?;
    if is_quote(s[k]) {
        return Ok(k + 1);
    }
    Err(Stop::Bad(k))
}

/// An attribute from its name on: where its name ends, where its raw value starts, and where it ends.
#[derive(Clone, Copy)]
pub struct Given {
    pub past: usize,
    pub value: usize,
    pub end: usize,
}

// An attribute, from its name on, whose name none of those from `first` on has.
fn attribute(s: &[u8], first: usize, at: usize, marks: &mut [u8; 64]) -> Result<Given, Stop>
    requires { Ready s.now first marks.old at }
    ensures { AttributeSays s.now first at marks.old marks.new result }
{
    let past = fresh(s, first, at, &mut *marks)?;
    let from = opened(s, past)?;
    let end = value(s, from, s[from - 1])?;
    Ok(Given {
        past,
        value: from,
        end,
    })
}

// Whether an attribute comes: glue stands before it, the tag has room for it, and a name starts.
fn goes_on(b: u8, glue: usize, n: usize) -> bool
    ensures { result ≡ leb 1 glue && (leb n (ATTRIBUTES - 1) && name_start b) }
{
    if glue == 0 {
        return false;
    }
    if Limits::ATTRIBUTES <= n {
        return false;
    }
    scan::is_name_start(b)
}

// The end of a tag with so many attributes: `>`, or where it may be `/>`.
fn tag_end(s: &[u8], at: usize, may: bool, count: usize) -> Result<Tag, Stop>
    requires { at < length s.now }
    ensures { EndSays may s.now at count result }
{
    if s[at] == b'>' {
        return Ok(Tag {
            empty: false,
            count,
            end: at + 1,
        });
    }
    if !may {
        return Err(Stop::Bad(at));
    }
    let end = scan::literal(s, at, b"/>")?;
    Ok(Tag {
        empty: true,
        count,
        end,
    })
}

/// Attributes, glue and the end of a tag. may: whether it may be an empty tag.
/// In a table that is lent for them the numbers 4k to 4k + 3 are where the name of the attribute k starts and ends, and where its raw value does,
/// counted from `at`. An empty one is lent where nobody asks.
pub fn head(s: &[u8], at: usize, may: bool, table: &mut [u16]) -> Result<Tag, Stop>
    requires { at ≤ length s.now }
    ensures { HeadSays may s.now at table.old table.new result }
{
    let mut marks = [0u8; 64];
    let mut n = 0;
    let mut i = at;
    // By hand: the next place is what was read there.
    loop {
        let j = scan::glue(s, i)?;
        if !goes_on(s[j], j - i, n) {
            return tag_end(s, j, may, n);
        }
        let g = attribute(s, at, j, &mut marks)?;
        put(
            &mut *table,
            n,
            j - at,
            g.past - at,
            g.value - at,
            g.end - 1 - at,
        );
        n += 1;
        i = g.end;
    }
}
