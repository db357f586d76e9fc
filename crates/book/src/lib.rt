// The plain book: its definitions stand in specs/, and each function here carries one of its laws.
#![tactic(auto)]

ghost use Rattle.book.specs.Cut.{CutsAgree};
ghost use Rattle.book.specs.Reading.{LatestShows};
ghost use Rattle.book.specs.Counting.{Counts_move};
ghost use Rattle.book.specs.Laws.{StringsFound, ToldApart, OpcodesKnown};
ghost use Rattle.book.specs.Sound.{RunsKeep};
ghost use Rattle.book.specs.Leaving.{RefusalsLeave, CallsTouch};
ghost use Rattle.book.specs.HandingOut.{ChunkHandsOut, ReturnsDrop};
ghost use Rattle.book.specs.Trips.{WorkedTrips};
ghost use Rattle.book.specs.Worked.{WorkedOperations, WorkedChunk, WorkedCut};

// A buffer cut between operations and flushed part by part gives the same book and the same answer.
pub fn cuts_agree()
    ensures { CutsAgree }
{}

// Seven cases worked by hand come out as they should: five trips, a row of pairs and a small index.
pub fn worked_trips()
    ensures { WorkedTrips }
{}

// A field, or a lookup under a key, shows the latest value written since the making, or else what the making gave.
pub fn latest_shows()
    ensures { LatestShows }
{}

// A create adds one to the count of the segment that it names; a charge takes its spans off, and ends the segment where it covers the count.
pub fn counts_move()
    ensures { Counts_move }
{}

// An inserted string is found under its number, an evicted one is not, and the others stay.
pub fn strings_found()
    ensures { StringsFound }
{}

// After every run from set-up the limits hold, no id or number stands twice, and live, handed out and free sum to the number of records.
pub fn runs_keep()
    ensures { RunsKeep }
{}

// A refused call changes nothing, but for a flush, which keeps what came before, and a chunk refused at a later id, whose earlier spans are gone.
pub fn refusals_leave()
    ensures { RefusalsLeave }
{}

// An accepted chunk moves each span under its number, with its id and its fields, and tags at the end of its rows.
pub fn chunk_hands_out()
    ensures { ChunkHandsOut }
{}

// Every opcode, played once, writes the field, the pair or the segment that it should.
pub fn worked_operations()
    ensures { WorkedOperations }
{}

// A chunk worked by hand has its tags in their order.
pub fn worked_chunk()
    ensures { WorkedChunk }
{}

// Each call touches its own parts of the book and no others.
pub fn calls_touch()
    ensures { CallsTouch }
{}

// Accepted returns drop just the spans that they name.
pub fn returns_drop()
    ensures { ReturnsDrop }
{}

// No two refusals have one number and the same values.
pub fn told_apart()
    ensures { ToldApart }
{}

// The table has an operation for each opcode from 0 to 16, and for no other.
pub fn opcodes_known()
    ensures { OpcodesKnown }
{}

// A buffer of two creates can be cut in three, the middle part empty.
pub fn worked_cut()
    ensures { WorkedCut }
{}
