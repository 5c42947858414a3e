//! A list cut into pieces, each answered by a thread, and the answers in the list's order, whichever piece ends first.

ghost use Rattle.std.specs.Prelude.{◌≡◌, ◌*◌, ◌^◌, ◌<◌, ◌≤◌, map, length, IfOk, Some, None, ℕ};
ghost use denote.Param.Send.{IsSync, IsSend};
ghost use Rattle.std.specs.Int.{div_ceil};
ghost use Rattle.std.specs.Fork.{slice_chunk};
ghost use Rattle.work_pieces.specs.declared.TheConstants.{MOST_WORKERS};
ghost use Rattle.work_pieces.specs.Each.{Each, Accepts, AcceptsAll, Gives};
ghost use Rattle.work_pieces.specs.Runs.{AcceptsRuns, chunks_to, pieces_of, put_together};

use crate::Gate;
use fixed_box::NoMemory;
use std::alloc::Global;
use std::thread::{Threads, join};

/// Answers each item of a list, and gives the answers in the items' order, whichever piece ends first.
///
/// The list is cut into pieces of `ceil(n / workers)` items, the last one possibly shorter. Each piece is done by one
/// thread, which enters the gate with the piece's number before its first item. Where there is no item, there is no piece.
/// `NoMemory` of any item, or where there is no room for the answers, is the answer of all, and no answer is handed out then.
pub fn by_pieces<
    R: Threads + Sync,
    T: Sync,
    X: Send + Drop,
    F: Fn(&T) -> Result<X, NoMemory> + Sync,
    G: Gate + Sync,
>(
    rt: &R,
    alloc: Global,
    items: &[T],
    workers: u32,
    gate: &G,
    answer: &F,
) -> Result<Vec<X>, NoMemory>
    requires few { length items.now < 2 ^ 32 }
    requires workers { (1 ≤ workers) × (workers ≤ MOST_WORKERS) }
    requires accepts { AcceptsAll F.Fn answer.now items.now }
    ensures { IfOk result (λ answers. Each (Gives F.Fn answer.now) items.now answers.items) }
{
    let found = by_runs(
        rt,
        alloc,
        items,
        workers,
        gate,
        &|run| -> Result<Vec<X>, NoMemory>
            requires { AcceptsAll F.Fn answer.now run.now }
            ensures { IfOk result (λ answers. Each (Gives F.Fn answer.entry.now) run.now answers.items) }
        { answers_of(alloc, run, answer) },
    )?;
    joined(alloc, found)
}

/// Answers each piece of a list as a whole, and gives the answers in the order of the pieces.
///
/// The list is cut as [`by_pieces`] cuts it, and each piece is done by one thread, which enters the gate with the piece's
/// number first. Only a single piece is done by the caller's own thread. `NoMemory` of any piece is the answer of all.
pub fn by_runs<
    R: Threads + Sync,
    T: Sync,
    X: Send + Drop,
    F: Fn(&[T]) -> Result<X, NoMemory> + Sync,
    G: Gate + Sync,
>(
    rt: &R,
    alloc: Global,
    items: &[T],
    workers: u32,
    gate: &G,
    answer: &F,
) -> Result<Vec<X>, NoMemory>
    requires few { length items.now < 2 ^ 32 }
    requires workers { (1 ≤ workers) × (workers ≤ MOST_WORKERS) }
    requires accepts { AcceptsRuns F.Fn answer.now items.now }
    ensures { IfOk result (λ answers. Each (Gives F.Fn answer.now) (pieces_of workers items.now) answers.items) }
{
    if items.is_empty() {
        return Ok(Vec::new(alloc));
    }
    let size = piece_size(items.len(), workers);
    let count = piece_count(items.len(), size);
    if count == 1 {
        let mut only = Vec::new(alloc);
        only.push(do_piece(items, size, 0, gate, answer)?)?;
        return Ok(only);
    }
    answer_pieces(rt, alloc, items, Cut { size, count }, gate, answer)
}

// How a list is cut: how many items a piece has, but for the last one, and how many pieces there are.
#[derive(Clone, Copy)]
struct Cut {
    size: usize,
    count: u32,
}

// How many items a piece has, but for the last one.
fn piece_size(items: usize, workers: u32) -> usize
    requires { 0 < workers }
    ensures { result ≡ div_ceil items workers }
{
    items.div_ceil(workers as usize)
}

// How many pieces of a size a list has.
fn piece_count(items: usize, size: usize) -> u32
    requires size { 0 < size }
    requires few { items < 2 ^ 32 }
    ensures is { result ≡ div_ceil items size }
    ensures begin { (n : ℕ) → n < result → n * size < items }
{
    items.div_ceil(size) as u32
}

// Answers the first pieces of a list, as many as the cut counts, in their order, each by a thread of its own. The caller starts them
// all: where a thread that has just started starts another one, the two are often put on one processor. And it does no piece
// itself: as often one of the threads is put on its processor, and begins only when the caller waits (both measured).
#[cycle(counted)]
fn answer_pieces<
    R: Threads + Sync,
    T: Sync,
    X: Send + Drop,
    F: Fn(&[T]) -> Result<X, NoMemory> + Sync,
    G: Gate + Sync,
>(rt: &R, alloc: Global, items: &[T], cut: Cut, gate: &G, answer: &F) -> Result<Vec<X>, NoMemory>
    requires begin { (n : ℕ) → n < cut.count → n * cut.size < length items.now }
    requires accepts { AcceptsRuns F.Fn answer.now items.now }
    ensures { IfOk result (λ answers. Each (Gives F.Fn answer.now) (chunks_to cut.size items.now cut.count) answers.items) }
{
    let Cut { size, count } = cut;
    if count == 0 {
        return Ok(Vec::new(alloc));
    }
    let last = count - 1;
    let there = || -> Result<X, NoMemory>
        requires { IsSync T.row × IsSync F.row × IsSync G.row × IsSend X.row × (last * size < length items.now) × AcceptsRuns F.Fn answer.now items.now }
        ensures { IfOk result (λ found. Gives F.Fn answer.entry.now (slice_chunk items.entry.now size last) found) }
    { do_piece(items, size, last, gate, answer) };
    let here = || -> Result<Vec<X>, NoMemory>
        requires { IsSync R.row × IsSync T.row × IsSync F.row × IsSync G.row × IsSend X.row
            × ((n : ℕ) → n < last → n * size < length items.now) × AcceptsRuns F.Fn answer.now items.now }
        ensures { IfOk result (λ answers. Each (Gives F.Fn answer.entry.now) (chunks_to size items.entry.now last) answers.items) }
    { answer_pieces(rt, alloc, items, Cut { size, count: last }, gate, answer) };
    let (one, before) = join(rt, there, here);
    let mut all = before?;
    all.push(one?)?;
    Ok(all)
}

// Answers the piece with a number, which enters the gate first.
fn do_piece<T, X: Drop, F: Fn(&[T]) -> Result<X, NoMemory>, G: Gate>(
    items: &[T],
    size: usize,
    number: u32,
    gate: &G,
    answer: &F,
) -> Result<X, NoMemory>
    requires begins { number * size < length items.now }
    requires accepts { AcceptsRuns F.Fn answer.now items.now }
    ensures { IfOk result (λ found. Gives F.Fn answer.now (slice_chunk items.now size number) found) }
{
    let mut entered = None;
    enter_once(gate, number, &mut entered);
    answer_of(items, size, number, entered, answer)
}

// Enters the gate for a piece, where no piece has entered it.
fn enter_once<G: Gate>(gate: &G, piece: u32, entered: &mut Option<u32>)
    requires { entered.old ≡ None }
    ensures { entered.new ≡ Some piece }
{
    gate.enter(piece);
    *entered = Some(piece);
}

// Answers the piece that has entered the gate.
fn answer_of<T, X: Drop, F: Fn(&[T]) -> Result<X, NoMemory>>(
    items: &[T],
    size: usize,
    number: u32,
    entered: Option<u32>,
    answer: &F,
) -> Result<X, NoMemory>
    requires entered { entered ≡ Some number }
    requires begins { number * size < length items.now }
    requires accepts { AcceptsRuns F.Fn answer.now items.now }
    ensures { IfOk result (λ found. Gives F.Fn answer.now (slice_chunk items.now size number) found) }
{
    let _ = entered;
    answer(piece_at(items, size, number))
}

// The piece with a number.
fn piece_at<T>(items: &[T], size: usize, number: u32) -> &[T]
    requires { number * size < length items.now }
    ensures { result.now ≡ slice_chunk items.now size number }
{
    let (_, rest) = items.split_at(number as usize * size);
    let (piece, _) = rest.split_at(size.min(rest.len()));
    piece
}

// Answers each item of a piece.
fn answers_of<T, X: Drop, F: Fn(&T) -> Result<X, NoMemory>>(
    alloc: Global,
    items: &[T],
    answer: &F,
) -> Result<Vec<X>, NoMemory>
    requires accepts { AcceptsAll F.Fn answer.now items.now }
    ensures { IfOk result (λ answers. Each (Gives F.Fn answer.now) items.now answers.items) }
{
    let mut answers = Vec::new(alloc);
    let mut rest = items;
    'items: while let Some((item, more)) = rest.split_first() {
        answers.push(answer(item)?)?;
        rest = more;
    }
    Ok(answers)
}

// The answers of some lists, one list after another.
fn joined<X: Drop>(alloc: Global, lists: Vec<Vec<X>>) -> Result<Vec<X>, NoMemory>
    ensures { IfOk result (λ answers. answers.items ≡ put_together (map (λ list. list.items) lists.items)) }
{
    let mut answers = Vec::new(alloc);
    'lists: for list in lists {
        let mut some = list;
        answers.append(&mut some)?;
    }
    Ok(answers)
}
