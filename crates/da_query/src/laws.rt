// What holds of the lines of queries and answers.

ghost use Rattle.std.specs.Prelude.{◌≡◌, ℕ, Some, true};
ghost use Rattle.da_base.specs.Words.{Bytes};
ghost use Rattle.da_fields.specs.declared.answer.Answer.{Answer};
ghost use Rattle.da_fields.specs.declared.answer.Answer.TheVariants.{Internal};
ghost use Rattle.da_fields.specs.declared.answer.Query.{Query};
ghost use Rattle.da_fields.specs.declared.answer.Why.TheVariants.{Malformed};
ghost use Rattle.da_query.specs.AnswerLines.{answer_to, script_answer, worker_answer};
ghost use Rattle.da_query.specs.AnswerSpelling.{IsAnswerTo, SpellsAnswer, SpellsScriptAnswer};
ghost use Rattle.da_query.specs.Queries.{query_of};
ghost use Rattle.da_query.specs.QuerySpelling.{SpellsQuery};

/// A line is read as a query exactly where it spells it.
pub fn a_query_line_is_read_as_it_spells()
    ensures read { (line : Bytes) (query : Query) → query_of line ≡ Some query → SpellsQuery line query }
    ensures spelled { (line : Bytes) (query : Query) → SpellsQuery line query → query_of line ≡ Some query }
{}

/// A line spells at most one query.
pub fn a_query_line_spells_one_query()
    ensures { (line : Bytes) (one other : Query) → SpellsQuery line one → SpellsQuery line other → one ≡ other }
{}

/// A worker's line is read as an answer to the query of a number exactly where it spells it.
pub fn a_worker_answer_is_read_as_it_spells()
    ensures read { (line : Bytes) (n : ℕ) (answer : Answer) → worker_answer line ≡ Some (n, answer) → SpellsAnswer line n answer }
    ensures spelled { (line : Bytes) (n : ℕ) (answer : Answer) → SpellsAnswer line n answer → worker_answer line ≡ Some (n, answer) }
{}

/// A worker's line spells at most one number and answer.
pub fn a_worker_line_spells_one_answer()
    ensures { (line : Bytes) (n m : ℕ) (one other : Answer) → SpellsAnswer line n one → SpellsAnswer line m other → (n ≡ m) × (one ≡ other) }
{}

/// A script's line is read as an answer to the query of a number exactly where it spells it.
pub fn a_script_answer_is_read_as_it_spells()
    ensures read { (line : Bytes) (n : ℕ) (answer : Answer) → script_answer line ≡ Some (n, answer) → SpellsScriptAnswer line n answer }
    ensures spelled { (line : Bytes) (n : ℕ) (answer : Answer) → SpellsScriptAnswer line n answer → script_answer line ≡ Some (n, answer) }
{}

/// A script's line spells at most one number and answer.
pub fn a_script_line_spells_one_answer()
    ensures { (line : Bytes) (n m : ℕ) (one other : Answer) → SpellsScriptAnswer line n one → SpellsScriptAnswer line m other → (n ≡ m) × (one ≡ other) }
{}

/// A worker's line is told to a query as the answer that it is to it, and as `Internal(Malformed)` exactly where it is
/// none. No line is `Internal(Malformed)` of itself.
pub fn a_line_answers_a_query_or_is_malformed()
    ensures answers { (query : Query) (line : Bytes) (answer : Answer) → IsAnswerTo query line answer → answer_to query line ≡ answer }
    ensures malformed { (query : Query) (line : Bytes) → ((answer : Answer) → IsAnswerTo query line answer → ⊥) → answer_to query line ≡ Internal Malformed }
    ensures none { (query : Query) (line : Bytes) → answer_to query line ≡ Internal Malformed → (answer : Answer) → IsAnswerTo query line answer → ⊥ }
{}
