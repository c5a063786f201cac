// The laws of streams. Each function does nothing: its contract is the law, which the check has it prove.
ghost use Rattle.stream.specs.Laws.{ReadsBack, AcceptsStreamsOnly, AcceptsExactly, PreviewBound, Locality, Nesting, CreepBound, Appends, Longest, LongestRun, Levels, Family};

// A load accepts the stream of every table at every floor, and holds at each place what is heard of the number there.
pub fn streams_are_read_back()
    ensures { ReadsBack }
{}

// A load accepts nothing else: what it accepts is the stream of the table that it then holds, at some floor. So it accepts exactly the
// streams that tables give.
pub fn only_streams_are_accepted()
    ensures only { AcceptsStreamsOnly }
    ensures exactly { AcceptsExactly }
{}

// A preview of any front of a stream, from the header on, is granted and near the table.
pub fn previews_are_near()
    ensures { PreviewBound }
{}

// A stream sees no more of a number than its likeness at the floor, and numbers alike at a floor are alike at every coarser one.
pub fn streams_see_likeness_only()
    ensures locality { Locality }
    ensures nesting { Nesting }
{}

// Resaving does not creep, whatever the floors and their order.
pub fn resaves_do_not_creep()
    ensures { CreepBound }
{}

// A finer floor only appends bits; no stream is longer than 122,887 bits; and what the longest run of whole symbols is.
pub fn lengths_are_bounded()
    ensures appends { Appends }
    ensures longest { Longest }
    ensures run { LongestRun }
{}

// What the definitions compute, in the terms of the subject: the level is that of the largest power of two not above the largest
// magnitude, and children and descendants are those of the tree.
pub fn definitions_mean_the_subject()
    ensures levels { Levels }
    ensures family { Family }
{}
