//! What a document is, and where its first syntax fault stands: definitions and laws, without code.
//!
//! `specs/Document` has the grammar of the Hjson text that chipgen reads, in the format's own words: gaps, comments,
//! keys, strings, literals, values, objects, documents, over the tree of `specs/Tree` whose parts know their places. It
//! has no limit of depth. `specs/SyntaxFault` says what a reader answers: the tree of a document that has no opener of
//! depth 65, the first such opener, or the end of the longest prefix that begins a document. `specs/Machine` is an inner
//! definition, one character at a time with a stack, for readers to be proved against. The laws below tie it to the
//! grammar both ways. Not said here: that a reader finds memory, and what the tree means.
//! Source of the format: Hjson (hjson.github.io), with the exact rules as `specs/` states them.
#![tactic(auto)]

ghost use Rattle.std.specs.Prelude.{◌≡◌, ◌↔◌, ℕ, List, IsSome};
ghost use Rattle.cg_docspec.specs.Place.{origin};
ghost use Rattle.cg_docspec.specs.Tree.{Tree};
ghost use Rattle.cg_docspec.specs.Document.{Document};
ghost use Rattle.cg_docspec.specs.SyntaxFault.{Begins, Answer, IsAnswer};
ghost use Rattle.cg_docspec.specs.Examples.{examples, AllRight};
ghost use Rattle.cg_docspec.specs.Machine.State.{start};
ghost use Rattle.cg_docspec.specs.Machine.Run.{run, Finds, answer};

/// A text has at most one tree.
pub fn a_text_has_one_tree()
    ensures { (text : List ℕ) (t u : Tree) → Document text t → Document text u → t ≡ u }
{}

/// A text has at most one answer: a tree or a first fault, at one place.
pub fn a_text_has_one_answer()
    ensures { (text : List ℕ) (a b : Answer) → IsAnswer text a → IsAnswer text b → a ≡ b }
{}

/// Every text has an answer, and the machine gives it.
pub fn the_machine_answers()
    ensures { (text : List ℕ) → IsAnswer text (answer text) }
{}

/// The machine reads exactly the documents, with their trees.
pub fn the_machine_reads_documents()
    ensures { (text : List ℕ) (t : Tree) → Finds origin start text t ↔ Document text t }
{}

/// The machine takes exactly the prefixes that begin a document.
pub fn the_machine_takes_what_begins_a_document()
    ensures { (p : List ℕ) → IsSome (run origin start p) ↔ Begins p }
{}

/// The examples of `specs/Examples` are right.
pub fn the_examples_are_right()
    ensures { AllRight examples }
{}
