//! Workloads that are drawn from a seed: two to four sessions without turns, each with one to three transactions on four keys.
ghost use Rattle.std.specs.Prelude.{◌≤◌, ◌<◌, length};

use pc_base::NoMemory;
use rand_core::{Rng, SeedableRng};
use rand_pcg::Pcg32;
use std::alloc::Global;

/// What a workload begins with: on one range; with an opening; on three ranges with little room, where a transaction soon gives up. Its writes are
/// pipelined, or not.
const FRONTS: [&str; 6] = [
    r#"{"version":1,"sessions":["#,
    r#"{"version":1,"pipelining":false,"sessions":["#,
    r#"{"version":1,"splits":["b"],"opening":1,"sessions":["#,
    r#"{"version":1,"pipelining":false,"splits":["b"],"opening":1,"sessions":["#,
    r#"{"version":1,"splits":["b","d"],"limit":64,"reruns":1,"sessions":["#,
    r#"{"version":1,"pipelining":false,"splits":["b","d"],"limit":64,"reruns":1,"sessions":["#,
];

/// What a session begins with: by the clock that is handed in, or by one of its own.
const SESSIONS: [&str; 3] = [
    r#"{"script":["#,
    r#"{"clock":{"start":12,"step":2},"script":["#,
    r#"{"clock":{"start":30,"step":0},"script":["#,
];

/// What a transaction begins with.
const TRANSACTIONS: [&str; 3] = [
    r#"{"do":["#,
    r#"{"priority":"low","do":["#,
    r#"{"priority":"high","do":["#,
];

/// What a transaction ends with.
const ENDS: [&str; 4] = ["]}", "]}", "]}", r#"],"end":"rollback"}"#];

const STATEMENTS: [&str; 10] = [
    r#"{"get":"a"}"#,
    r#"{"get":"c"}"#,
    r#"{"scan":["a","d"]}"#,
    r#"{"scan":["",""]}"#,
    r#"{"put":["a","1"]}"#,
    r#"{"put":["b","2"]}"#,
    r#"{"put":["d","4"]}"#,
    r#"{"delete":"a"}"#,
    r#"{"add":["c",1]}"#,
    r#"{"add":["d",-1]}"#,
];

/// The workload that is drawn from the seed.
pub fn drawn(alloc: Global, seed: u64) -> Result<String, NoMemory> {
    let mut rng = Pcg32::seed_from_u64(seed);
    let mut text = String::new(alloc);
    text.push_str(one_of(&mut rng, &FRONTS))?;
    for at in 0..2 + below_three(&mut rng) {
        separate(at, &mut text)?;
        push_session(&mut rng, &mut text)?;
    }
    text.push_str("]}")?;
    Ok(text)
}

fn push_session(rng: &mut Pcg32, text: &mut String) -> Result<(), NoMemory> {
    text.push_str(one_of(rng, &SESSIONS))?;
    for at in 0..1 + below_three(rng) {
        separate(at, text)?;
        push_transaction(rng, text)?;
    }
    text.push_str("]}")?;
    Ok(())
}

fn push_transaction(rng: &mut Pcg32, text: &mut String) -> Result<(), NoMemory> {
    text.push_str(one_of(rng, &TRANSACTIONS))?;
    for at in 0..1 + below_three(rng) {
        separate(at, text)?;
        text.push_str(one_of(rng, &STATEMENTS))?;
    }
    text.push_str(one_of(rng, &ENDS))?;
    Ok(())
}

/// A comma before each part but the first.
fn separate(at: u32, text: &mut String) -> Result<(), NoMemory> {
    if at > 0 {
        text.push(',')?;
    }
    Ok(())
}

fn below_three(rng: &mut Pcg32) -> u32
    ensures { result < 3 }
{
    rng.next_u32() % 3
}

fn one_of<'a>(rng: &mut Pcg32, parts: &[&'a str]) -> &'a str
    requires { 1 ≤ length parts.now }
{
    let at = rng.next_u32() as usize % parts.len();
    parts[at]
}
