// A job's text, read into a memory.
ghost use Rattle.std.specs.Prelude.{◌≡◌, List, map, not, true, ℕ, ◌≤◌, length, Ok};
ghost use Rattle.definitions.specs.Lists.{empty};
ghost use Rattle.definitions.specs.Limits.{document01};
ghost use Rattle.definitions.specs.Job.{job_head_of};
ghost use Rattle.heads.specs.Heads.{head_of};
ghost use Rattle.heads.specs.Reading.{from_runs, from_delays, from_edges, closed};
ghost use Rattle.orders.specs.Edges.{edge_in};
ghost use Rattle.orders.specs.Links.{linkable, circles, Linked};
ghost use Rattle.jobs.specs.Answers.{Loaded};
ghost use Rattle.jobs.specs.Stages.{Admitted, Headed, closing, rest_of, RunsIn, DelaysIn};

use heads::{Head, Opened, layout};
use lines::reader::Reader;
use orders::Unlinked;
use rows::Kind;
use text::refusal::Refusal;

// The answer after the last edge line: a line left over (2), a circle (7), or the end of the job's cells, whose edges are then linked.
fn close(
    reader: Reader,
    v: usize,
    edges: &[u64],
    end: usize,
    links: &mut [u64],
) -> Result<usize, Refusal>
    requires { linkable v edges.now (length links.old) ≡ true }
    ensures { (result ≡ closing (not (empty reader.entry)) (circles v (map edge_in edges.now)) end) × (result ≡ Ok end → Linked v edges.now links.new) }
{
    if !reader.is_at_end() {
        return Err(Refusal::BadLine);
    }
    match orders::link(edges, v, links) {
        Ok(()) => Ok(end),
        Err(Unlinked::Circle) => Err(Refusal::Circle),
        Err(Unlinked::Misfit) => Err(Refusal::NoRoom),
    }
}

// The E lines and what follows them, after the C and D lines' cells in `mem`.
fn load_edges(mut reader: Reader, mem: &mut [u64], links: &mut [u64]) -> Result<usize, Refusal>
    requires { Headed document01 mem.old (length links.old) }
    ensures { (runs delays : List (List ℕ)) → DelaysIn mem.old runs delays
        → Loaded (closed (from_edges document01 (job_head_of mem.old) runs delays reader.entry)) mem.new links.new result }
{
    let v = mem[0];
    let e = mem[2] as usize;
    let a = layout::edges_at(v as u16, mem[1] as u16);
    edges::read_edges(&mut reader, v, e, &mut mem[a..])?;
    let end = a + e;
    close(reader, v as usize, &mem[a..end], end, links)
}

// The D lines and what follows them, after the C lines' cells in `mem`.
fn load_delays(mut reader: Reader, mem: &mut [u64], links: &mut [u64]) -> Result<usize, Refusal>
    requires { Headed document01 mem.old (length links.old) }
    ensures { (runs : List (List ℕ)) → RunsIn mem.old runs
        → Loaded (closed (from_delays document01 (job_head_of mem.old) runs reader.entry)) mem.new links.new result }
{
    let m = mem[1] as usize;
    let a = layout::numbers_at(m as u32, mem[0] as u32);
    rows::read_rows(&mut reader, b"D,", Kind::Delays, m, 1 + m, &mut mem[a..])?;
    load_edges(reader, mem, links)
}

// The C lines and what follows them, after the head in `mem`.
fn load_runs(mut reader: Reader, mem: &mut [u64], links: &mut [u64]) -> Result<usize, Refusal>
    requires { Headed document01 mem.old (length links.old) }
    ensures { Loaded (closed (from_runs document01 (job_head_of mem.old) reader.entry)) mem.new links.new result }
{
    let v = mem[0] as usize;
    let k = 1 + mem[1] as usize;
    rows::read_rows(&mut reader, b"C,", Kind::Runs, v, k, &mut mem[4..])?;
    load_delays(reader, mem, links)
}

// Puts the numbers of a head to the front of a memory.
fn put_head(mem: &mut [u64], head: Head)
    requires { 4 ≤ length mem.old }
    ensures { job_head_of mem.new ≡ head_of head }
{
    mem[..4].copy_from_slice(&[head.tasks, head.processors, head.edges, head.losses]);
}

// The rest of a job's text, after its head. The job's cells then stand at the front of `mem`; the answer is their number, or the
// refusal.
pub fn load_rest(job: Opened, mem: &mut [u64], links: &mut [u64]) -> Result<usize, Refusal>
    requires { Admitted job.head (length mem.old) (length links.old) }
    ensures { Loaded (rest_of job.entry) mem.new links.new result }
{
    put_head(mem, job.head);
    load_runs(Reader::new(job.rest), mem, links)
}
