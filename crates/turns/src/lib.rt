// One turn of a session: a call read, made, and its line; the whole session is specs/Session.antt.
#![tactic(auto)]

pub mod turn;
