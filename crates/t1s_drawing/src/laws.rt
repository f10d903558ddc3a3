//! Laws of the definitions.
ghost use Rattle.t1s_drawing.specs.BarLaws.{BarsAreDrives};
ghost use Rattle.t1s_drawing.specs.DumpLaws.{DumpsShowRuns};
ghost use Rattle.t1s_drawing.specs.PictureBars.{PicturesHaveBars};

/// The bars of a picture are exactly the parts of drives that the events of its report tell, as far as the window shows
/// them: none is lost, and none is made up.
pub fn bars_are_drives()
    ensures { BarsAreDrives }
{}

/// The bars of a picture that isn't refused are those of the events that its lines tell, which are at nodes of the picture.
pub fn pictures_have_bars()
    ensures { PicturesHaveBars }
{}

/// A dump that isn't refused shows the run that its lines tell: the wire `drives` of each node is 1 in exactly the ticks of the
/// drives that they tell, and the wire `hears` has in each tick what they tell is heard.
pub fn dumps_show_runs()
    ensures { DumpsShowRuns }
{}
