// A job in memory.

// A working memory with a job at its front, the links between the job's edges, and the memory's capacity.
// Kept: what is known of them (JobHeld, LinksHeld) stays a clause: as a ghost field, tried, antt finds no proof that it is a proposition (`Ascends`
// goes by recursion, and where an edge stands in a list is data); under a model a type with a lifetime is not Copy.
// Kept: where the memory is written the three stand side by side: a struct with the `&mut` memory in a field was tried, and no goal says what the
// lent slice holds afterwards.
#[derive(Clone, Copy)]
pub struct House<'a> {
    pub mem: &'a [u64],
    pub links: &'a [u64],
    pub capacity: usize,
}
