//! Worked rows of answer lines that no script reaches yet, as equations that the definitions of gl_cli compute
//! (`proofs/PrintedRows`). Its calls print exactly these texts, by their clauses.
#![tactic(auto)]
