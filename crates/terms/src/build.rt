// Ops 3, 4 and 5: the words of a term go into a region, and register d refers to the first of them.

ghost use Rattle.std.specs.Prelude.{true, ◌≡◌, ◌+◌, ◌*◌};
ghost use Rattle.words.specs.Answers.{told_done};
ghost use Rattle.store.specs.Memory.{memory_in, KeptFilling, fill_all};
ghost use Rattle.store.specs.Rows.{present};
ghost use Rattle.terms.specs.Build.{page_joined, place_of, placed, put_answer, put_tables, build_answer, build_tables, build_memory, variable_words, integer_words, structure_answer, structure_tables, structure_memory};

use crate::arguments::Arguments;
use store::registers::{copy_number, set_register};
use store::{Filling, NewestPage};
use words::{Cell, Link, Ref, Refusal, Register};

// The words go to page p, one after another from the word after the last filled one on.
#[tactic(auto, using(crate::proofs::Filling::fill_turn, crate::proofs::Filling::fill_ends))]
fn fill_all(heap: &mut Filling<'_>, n: u8, p: u32, filled: u8, term: &[u64])
    ensures memory { memory_in heap.new ≡ fill_all n (p * 16 + filled + 1) term.now (memory_in heap.old) }
    ensures kept { KeptFilling heap.old heap.new }
{
    let start = p as usize * 16 + filled as usize + 1;
    for (i, w) in term.iter().enumerate() {
        heap.fill_at(n, start + i, *w);
    }
}

// Page q joins the list of the region, after its newest page.
#[tactic(auto, unfolding(crate::specs::Build::page_joined, words::specs::Words::heap_word))]
fn join_page(heap: &mut Filling<'_>, n: u8, home: NewestPage, q: u32)
    ensures memory { memory_in heap.new ≡ page_joined n home.page home.stamp q (memory_in heap.old) }
    ensures kept { KeptFilling heap.old heap.new }
{
    heap.start_page(n, q, home.stamp);
    let link = Link {
        stamp: home.stamp,
        next: Some((q % 65536) as u16),
    };
    heap.put_link(home.page, u64::from(link));
}

// A term goes after the last filled word of the region's newest page if it fits in the 15 words there; otherwise the lowest free page joins the list and the
// term starts it. The answer is the address of the term's first word.
#[tactic(auto, unfolding(crate::specs::Build::place_of, crate::specs::Build::placed))]
pub fn place(heap: &mut Filling<'_>, n: u8, home: NewestPage, term: &[u64]) -> Option<usize>
    ensures answer { result ≡ place_of heap.old.pages.first heap.old.pages.count home.page term.now heap.old.words.now }
    ensures memory { memory_in heap.new ≡ placed heap.old.pages.first heap.old.pages.count n home.page home.stamp term.now (memory_in heap.old) }
    ensures kept { KeptFilling heap.old heap.new }
{
    let filled = heap.view().fill(home.page as usize);
    if filled + term.len() <= 15 {
        fill_all(heap, n, home.page, filled as u8, term);
        return Some(home.page as usize * 16 + filled + 1);
    }
    let q = heap.view().lowest_free()?;
    join_page(heap, n, home, q as u32);
    fill_all(heap, n, q as u32, 0, term);
    Some(q * 16 + 1)
}

// A term is placed, and register d of the present copy refers to its first word.
#[tactic(auto, unfolding(crate::specs::Build::put_answer, crate::specs::Build::put_tables))]
fn put_term(
    heap: &mut Filling<'_>,
    tables: &mut [u64],
    d: u8,
    home: NewestPage,
    term: &[u64],
) -> Result<(), Refusal>
    ensures answer { told_done result ≡ put_answer heap.old.pages.first heap.old.pages.count home.page term.now heap.old.words.now }
    ensures tables { tables.new ≡ put_tables heap.old.pages.first heap.old.pages.count (present tables.old) d home.page home.stamp term.now tables.old heap.old.words.now }
    ensures memory { memory_in heap.new ≡ placed heap.old.pages.first heap.old.pages.count (present tables.old) home.page home.stamp term.now (memory_in heap.old) }
    ensures kept { KeptFilling heap.old heap.new }
{
    let n = copy_number(tables);
    let a = place(heap, n, home, term).ok_or(Refusal::NoPage)?;
    let r = Ref {
        stamp: home.stamp,
        address: (a % 65536) as u16,
    };
    set_register(tables, n, d, u64::from(Register::Term(r)));
    Ok(())
}

// A term that is good goes into the region in register a.
#[tactic(auto, unfolding(crate::specs::Build::build_answer, crate::specs::Build::build_tables, crate::specs::Build::build_memory))]
fn build(
    heap: &mut Filling<'_>,
    tables: &mut [u64],
    d: u8,
    a: u8,
    term: &[u64],
) -> Result<(), Refusal>
    ensures answer { told_done result ≡ build_answer heap.old.pages.first heap.old.pages.count a true term.now heap.old.words.now tables.old heap.old.turned.now }
    ensures tables { tables.new ≡ build_tables heap.old.pages.first heap.old.pages.count d a true term.now heap.old.words.now tables.old heap.old.turned.now }
    ensures memory { memory_in heap.new ≡ build_memory heap.old.pages.first heap.old.pages.count a true term.now tables.old (memory_in heap.old) }
    ensures kept { KeptFilling heap.old heap.new }
{
    let home = heap.view().home(tables, a).ok_or(Refusal::NoRegion)?;
    put_term(heap, tables, d, home, term)
}

// Op 3.
pub fn make_var(heap: &mut Filling<'_>, tables: &mut [u64], d: u8, a: u8) -> Result<(), Refusal>
    ensures answer { told_done result ≡ build_answer heap.old.pages.first heap.old.pages.count a true variable_words heap.old.words.now tables.old heap.old.turned.now }
    ensures tables { tables.new ≡ build_tables heap.old.pages.first heap.old.pages.count d a true variable_words heap.old.words.now tables.old heap.old.turned.now }
    ensures memory { memory_in heap.new ≡ build_memory heap.old.pages.first heap.old.pages.count a true variable_words tables.old (memory_in heap.old) }
    ensures kept { KeptFilling heap.old heap.new }
{
    build(heap, tables, d, a, &[u64::from(Cell::Unbound)])
}

// Op 4.
pub fn integer(
    heap: &mut Filling<'_>,
    tables: &mut [u64],
    d: u8,
    a: u8,
    value: i32,
) -> Result<(), Refusal>
    ensures answer { told_done result ≡ build_answer heap.old.pages.first heap.old.pages.count a true (integer_words value) heap.old.words.now tables.old heap.old.turned.now }
    ensures tables { tables.new ≡ build_tables heap.old.pages.first heap.old.pages.count d a true (integer_words value) heap.old.words.now tables.old heap.old.turned.now }
    ensures memory { memory_in heap.new ≡ build_memory heap.old.pages.first heap.old.pages.count a true (integer_words value) tables.old (memory_in heap.old) }
    ensures kept { KeptFilling heap.old heap.new }
{
    build(heap, tables, d, a, &[u64::from(Cell::Int(value))])
}

// Op 5. An arity over 14 and a register past 31 are no step.
#[tactic(auto, unfolding(crate::specs::Build::structure_answer, crate::specs::Build::structure_tables, crate::specs::Build::structure_memory, crate::specs::Build::build_answer, crate::specs::Build::build_tables, crate::specs::Build::build_memory))]
pub fn structure(
    heap: &mut Filling<'_>,
    tables: &mut [u64],
    d: u8,
    a: u8,
    b: u8,
    functor: u16,
    arity: u8,
) -> Result<(), Refusal>
    ensures answer { told_done result ≡ structure_answer heap.old.pages.first heap.old.pages.count a b functor arity heap.old.words.now tables.old heap.old.turned.now }
    ensures tables { tables.new ≡ structure_tables heap.old.pages.first heap.old.pages.count d a b functor arity heap.old.words.now tables.old heap.old.turned.now }
    ensures memory { memory_in heap.new ≡ structure_memory heap.old.pages.first heap.old.pages.count a b functor arity tables.old (memory_in heap.old) }
    ensures kept { KeptFilling heap.old heap.new }
{
    let arguments = Arguments::of(b, arity).ok_or(Refusal::NoStep)?;
    let home = heap.view().home(tables, a).ok_or(Refusal::NoRegion)?;
    if !arguments.live(&heap.view(), tables) {
        return Err(Refusal::Dead);
    }
    let term = arguments.structure(tables, functor);
    put_term(heap, tables, d, home, &term[..arity as usize + 1])
}
