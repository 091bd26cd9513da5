//! What holds of a whole session of a caller. Each law is the contract of a function that does nothing.
ghost use Rattle.vuthgal_c.specs.Conversation.{CallersSeeTheRows, CopiesGoOn};

/// A law: whatever calls a caller makes, an open session is in the state after the choices played and not taken back.
pub fn callers_see_the_rows()
    ensures { CallersSeeTheRows }
{}

/// A law: a copy of a session is in the state to which the same choices lead.
pub fn copies_go_on()
    ensures { CopiesGoOn }
{}
