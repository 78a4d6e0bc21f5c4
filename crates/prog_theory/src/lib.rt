//! What a program means, and why its control graph says the same. It has no code: `specs/` says what a reader has to
//! believe, one notion a file, and `proofs/` has the lemmas.
//!
//! **Meaning.** Read `specs/` in this order. A state is the list of the numbers of the variables, whole numbers without
//! bound (`States`). A condition can be true or false at a state, and `?` can be both (`Conditions`). A program is a
//! tree of statements (`Statements`), numbered from 0 in the order of their first tokens (`Numbering`). A configuration
//! is a stack of numbered statements and a state; a step is taken by the statement on top (`Steps`): `if` is replaced
//! by one of its blocks, `while` stays with its body above it, and `assume` goes on only where its condition can be
//! true. A run begins with the whole program on the stack, at any state. It visits a statement with a state where that
//! statement comes to stand on top, and the end of the program where the stack is empty (`Visits`).
//!
//! **Chosen runs.** A list of numbers decides what a program leaves open: the value of a `havoc`, the truth of a `?`
//! (`Looks`, `Runs`, `Chosen`). Each configuration of a chosen run is one step after the last.
//!
//! **What a program keeps.** Names of its variables (`Named`), limits (`Limits`, `Atoms`, `Nesting`), and that its parts
//! name its variables alone (`Each`, `Fits`, `Within`).
//!
//! **The control graph.** Comparisons become guards `l <= r` (`Tests`). A condition has inner points, where its left
//! side is decided and its right side is not (`Edges`); each statement has a point and those of its condition
//! (`Places`); the graph has these points, the exit and the edges between them (`Graph`), and its heads are the points
//! of `while` (`Heads`, `ControlGraphs`). What each such graph keeps is in `GraphKeeps`.
//!
//! **The theorem** (`proofs/WalksAreVisits`). A walk along the edges from point 0, begun at any state, comes to the
//! point of a statement or to the exit with a state exactly where a run visits it with that state (`Walks`,
//! `PointVisits`). So where sets of states, one for each point, are closed under the edges, they have the state of each
//! visit (`Families`): that is how an invariant family is true at every visit of every run.
#![tactic(auto)]
