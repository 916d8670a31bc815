// An order of the tasks in which each comes after those that precede it, made among the links.
ghost use Rattle.std.specs.Prelude.{◌≡◌, List, [], map, true, ℕ, ◌+◌, ◌≤◌, ◌<◌, length};
ghost use Rattle.orders.specs.Edges.{edge_in};
ghost use Rattle.orders.specs.Order.{Within, Rising};
ghost use Rattle.orders.specs.Links.{order_at, links_size, circles, Runs, Counted, Linked, LinkedAs};
ghost use Rattle.orders.specs.Sorting.{pending, released, joined, joined_count, Sorting};

use crate::tables::{ORDER, PENDING, at};
use crate::{Unlinked, edge_to, leaving, task_at};

// Task t joins the n tasks of the order, if no edge blocks it. The answer is how many they then are.
fn join(v: usize, links: &mut [u64], t: usize, n: usize) -> usize
    requires { (links_size v 0 ≤ length links.old) × (t < v) × (n ≤ v) }
    ensures { (links.new ≡ joined v t n links.old) × (result ≡ joined_count v t n links.old) }
{
    if links[at(PENDING, v, t)] == 0 {
        links[at(ORDER, v, n)] = t as u64;
        return n + 1;
    }
    n
}

// One edge less blocks task t, which joins the n tasks of the order, if none does any more. The answer is how many they then are.
fn release(v: usize, links: &mut [u64], t: usize, n: usize) -> usize
    requires { (links_size v 0 ≤ length links.old) × (t < v) × (n ≤ v) × (1 ≤ pending v links.old t) }
    ensures { (links.new ≡ joined v t n (released v t links.old)) × (result ≡ joined_count v t n (released v t links.old)) }
{
    links[at(PENDING, v, t)] -= 1;
    join(v, links, t, n)
}

// Lists the tasks that no edge enters. The answer is their number.
fn list_entries(edges: &[u64], v: usize, links: &mut [u64]) -> usize
    requires { Runs v edges.now links.old × Counted v edges.now links.old }
    ensures { Sorting v edges.now links.new v 0 result [] }
{
    let mut n = 0;
    for t in 0..v {
        n = join(v, links, t, n);
    }
    n
}

// The edges that leave task i of the order no longer block; a task that becomes free joins the order's n tasks. The answer is how
// many they then are.
fn unblock(edges: &[u64], v: usize, links: &mut [u64], i: usize, n: usize) -> usize
    requires { Within v (map edge_in edges.now) × Sorting v edges.now links.old v i n [] × (i < n) }
    ensures { Sorting v edges.now links.new v (i + 1) result [] }
{
    let t = task_at(links, v, i);
    let mut count = n;
    let run = leaving(links, v, t);
    for k in (run.start..run.end).rev() {
        count = release(v, links, edge_to(edges[k]), count);
    }
    count
}

// Puts the tasks into an order, each after those that precede it, if the edges form no circle.
pub fn arrange(edges: &[u64], v: usize, links: &mut [u64]) -> Result<(), Unlinked>
    requires { Runs v edges.now links.old × Counted v edges.now links.old × Within v (map edge_in edges.now) }
    ensures { (before : List ℕ) → LinkedAs true (circles v (map edge_in edges.now)) v edges.now before links.new result }
{
    let mut n = list_entries(edges, v, links);
    let mut i = 0;
    // Kept: the new form is no plainer: n grows in the loop, and a `for` sets its bound before it.
    while i < n {
        n = unblock(edges, v, links, i, n);
        i += 1;
    }
    if n < v {
        return Err(Unlinked::Circle);
    }
    Ok(())
}

// The tasks by number: an order, where every edge leads to a task of a greater one.
pub fn number(edges: &[u64], v: usize, links: &mut [u64])
    requires { Runs v edges.now links.old × Rising (map edge_in edges.now) }
    ensures { Linked v edges.now links.new }
{
    for t in 0..v {
        links[at(ORDER, v, t)] = t as u64;
    }
}
