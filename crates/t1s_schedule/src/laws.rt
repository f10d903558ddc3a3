//! Laws of the drives of a run.
ghost use Rattle.t1s_schedule.specs.DriveContents.{DrivesHold};
ghost use Rattle.t1s_schedule.specs.ScheduledRun.{SharesTheLine};

/// On a fit script the drives of the first ticks of its run, however many, are a schedule; each holds a beacon, or a run of pieces
/// that carry the frames of offers; and no two of them overlap at any point of the cable, be it of the trunk or of a stub.
pub fn shares_the_line()
    ensures { SharesTheLine }
{}

/// On a fit script each drive holds a beacon, or a run of one piece or more, each of which carries the frame of an offer that
/// leaves in it; a drive that goes on beyond the first ticks holds the beginning of one.
pub fn drives_hold()
    ensures { DrivesHold }
{}
