// The model of the ticket house: what may happen, and what is promised of every state that can be reached.
// Nothing runs here: each function's contract is a theorem about the definitions in specs/.
#![tactic(auto)]

ghost use Rattle.tickets.specs.Cases.{WorkedCases};
ghost use Rattle.tickets.specs.Promise.{Always, AskedFor, AskingMade, Fresh, Granted, Heard, HouseGave, Kept, LoggedIn, Main, NoTicket, Once, OnceByNumber, Over, OwnKept, Served, TicketAsked, TicketMade};

// All the promises together.
pub fn main_promise()
    ensures { Main }
{}

// What a service does was asked, by that reader, of that service, in those words, just now.
pub fn asked_for()
    ensures { Always AskedFor }
{}

// A ticket that the house gives by a ticket was asked for.
pub fn granted()
    ensures deeds { Always Granted }
    ensures given { Always HouseGave }
    ensures tickets { Always TicketAsked }
{}

// One line of a reader leads to one deed at most.
pub fn once()
    ensures by_line { Always Once }
    ensures by_number { Always OnceByNumber }
{}

// Session keys and own keys stay unknown while they should.
pub fn kept()
    ensures session_keys { Always Kept }
    ensures own_keys { Always OwnKept }
{}

// A ticket that opens was made by the house.
pub fn ticket_made()
    ensures { Always TicketMade }
{}

// An asking that opens was sent by the reader of its key, to the service that it names.
pub fn asking_made()
    ensures { Always AskingMade }
{}

// A closed account is over one life later, and gets no ticket.
pub fn over()
    ensures deeds { Always Over }
    ensures tickets { Always NoTicket }
{}

// A ticket for the house is made only upon a login of that reader, just now.
pub fn logged_in()
    ensures { Always LoggedIn }
{}

// Whoever asks does so under a key that was made for just this.
pub fn fresh()
    ensures { Always Fresh }
{}

// A receipt means that it was done.
pub fn heard()
    ensures { Always Heard }
{}

// From every state whoever has an open account can be served.
pub fn served()
    ensures { Always Served }
{}

// Worked cases, each a row of events and of what is so after them.
pub fn worked_cases()
    ensures { WorkedCases }
{}
