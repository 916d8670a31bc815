#![tactic(auto)]

// Definitions and laws only: what a slice holds after a part of it was written.
