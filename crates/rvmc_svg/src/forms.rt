//! The forms of all that is written on a page, in which `{N}` stands for the piece with this number.

/// What stands before all that is drawn: the page's width and height, the least width that it is shown in, the styles and
/// the shapes.
pub(crate) const FRONT: &str =
    "<svg xmlns=\"http://www.w3.org/2000/svg\" width=\"{0}\" height=\"{1}\" style=\"min-width:{2}px\" font-family=\"system-ui,sans-serif\" role=\"img\">\n{3}{4}";

// ---- ranks

/// The heads of a sender's arrows, the closed one and the open one: its rank.
pub(crate) const HEADS: &str = "\
<marker id=\"h{0}\" refX=\"13\" refY=\"4\" markerWidth=\"9\" markerHeight=\"8\" markerUnits=\"userSpaceOnUse\" orient=\"auto\"><path class=\"f{0}\" d=\"M0,.6L8,4L0,7.4z\"/></marker>
<marker id=\"o{0}\" refX=\"8\" refY=\"4\" markerWidth=\"9\" markerHeight=\"8\" markerUnits=\"userSpaceOnUse\" orient=\"auto\"><path class=\"s{0} none\" d=\"M1,.8L8,4L1,7.2\"/></marker>
";

/// The band behind a rank: where it begins, its width and its height.
pub(crate) const BAND: &str =
    "<rect class=\"band\" x=\"{0}\" width=\"{1}\" y=\"8\" height=\"{2}\"/>\n";

/// The name of a rank: the rank, further classes, where it stands across and down, and the class of its word.
pub(crate) const NAME: &str =
    "<text class=\"f{0} bold{1}\" font-size=\"12\" text-anchor=\"middle\" x=\"{2}\" y=\"{3}\"><tspan class=\"{4}\">rank </tspan>{0}</text>\n";

/// The lane of a hart: where it stands across, begins and ends.
pub(crate) const LANE: &str =
    "<line class=\"lane\" x1=\"{0}\" x2=\"{0}\" y1=\"{1}\" y2=\"{2}\"/>\n";

/// The name of a hart above its lane: the lane's three and the hart.
pub(crate) const HART: &str =
    "<text class=\"dim\" font-size=\"10\" text-anchor=\"middle\" x=\"{0}\" y=\"38\"><tspan class=\"wide\">hart </tspan>{3}</text>\n";

/// A bar: the hart that waits and from which step, until when (two pieces) and how often it looked; and the bar's class,
/// where it stands across and down, and its height.
pub(crate) const BAR: &str =
    "<g><title>rank {0} hart {1} waits from step {2} to {3}{4}: {5} looks in vain</title>\
<rect class=\"{6}\" rx=\"2\" width=\"6\" transform=\"translate(-3 0)\" x=\"{7}\" y=\"{8}\" height=\"{9}\"/></g>\n";

// ---- arrows

/// An arrow behind its title, straight from lane to lane, and in a bow beside its lane: its class, its rank, where it begins
/// across and down, where it ends, and how far below its begin.
pub(crate) const STRAIGHT: &str =
    "</title><line class=\"{0} s{1}\" x1=\"{2}\" y1=\"{3}\" x2=\"{4}\" y2=\"{5}\"";

pub(crate) const BOW: &str =
    "</title><svg overflow=\"visible\" x=\"{2}\" y=\"{3}\"><path class=\"{0} s{1}\" d=\"M0,0C26,0 26,{6} 0,{6}\"";

/// The end of its line, of the same pieces: with the closed head, with the open one, and without a head.
pub(crate) const CLOSED: &str = " marker-end=\"url(#h{1})\"/>";

pub(crate) const OPEN: &str = " marker-end=\"url(#o{1})\"/>";

pub(crate) const BARE: &str = "/>";

/// The number of a step that isn't shown, at the border: where it stands, and the step.
pub(crate) const BORDER: &str =
    "<text class=\"dim halo\" font-size=\"10\" dx=\"5\" x=\"{0}\" y=\"{1}\">{2}</text>";

/// The tag and size of a message: its rank, where that stands, the tag and the size.
pub(crate) const LABEL: &str =
    "<text class=\"f{0} halo wide\" font-size=\"10\" text-anchor=\"middle\" x=\"{1}\" y=\"{2}\">t{3} {4}B</text>\n";

/// That nobody got it: its rank, at which side of its head that stands, how far beside it, where it stands, and the rank that
/// it goes to.
pub(crate) const LOSS: &str =
    "<text class=\"f{0} halo wide\" font-size=\"10\" text-anchor=\"{1}\" dx=\"{2}\" x=\"{3}\" y=\"{4}\">to {5}: not got</text>\n";

/// A ribbon: where it stands across and its width, where it stands down and its height.
pub(crate) const RIBBON: &str =
    "<svg x=\"{0}\" width=\"{1}\" y=\"{2}\" height=\"{3}\" viewBox=\"0 0 100 {3}\" preserveAspectRatio=\"none\">";

/// Its shape: its rank; the side of the sender's lane, and where the first arrow begins; the other side, and between which rows
/// the arrows end; and where the last one begins.
pub(crate) const BETWEEN: &str =
    "<path class=\"f{0} ribbon\" d=\"M{1},{2}L{3},{4}L{3},{5}L{1},{6}z\"/></svg>\n";

// ---- marks

/// The group of a mark: its step.
pub(crate) const STEP: &str = "<g id=\"step{0}\">";

/// The end of a mark's title where it stands for one step and for several, its ring, and its shape: the shape's name, its
/// rank, where it stands across and down, and for how many steps.
pub(crate) const ONCE: &str = "</title>";

pub(crate) const TIMES: &str = "\nand more of its kind: {4} in a row</title>";

pub(crate) const RING: &str = "<use href=\"#ring\" class=\"f{1}\" x=\"{2}\" y=\"{3}\"/>\n";

pub(crate) const SHAPE: &str = "<use href=\"#{0}\" class=\"f{1}\" x=\"{2}\" y=\"{3}\"/>\n";

/// A note beside a mark: its class, at which side it stands, how far beside the mark (two pieces), where the mark stands
/// across and down, the note, and the dots behind it.
pub(crate) const NOTE: &str =
    "<text class=\"{0} halo wide\" font-size=\"10\" text-anchor=\"{1}\" dx=\"{2}{3}\" dy=\"3.5\" x=\"{4}\" y=\"{5}\">{6}{7}</text>\n";

/// How many of these there were: where that stands, the count, and what is counted.
pub(crate) const COUNT: &str =
    "<text class=\"dim halo wide\" font-size=\"10\" dx=\"-7\" text-anchor=\"end\" x=\"{0}\" y=\"{1}\">{2} {3}</text>\n";

/// The number of a step at the left: its class, where it stands, and the step.
pub(crate) const PLACE: &str =
    "<text class=\"{0}\" font-size=\"10\" x=\"{1}\" y=\"{2}\">{3}</text>\n";

// ---- the end

/// What stands beside the first row of those that wait: how far down.
pub(crate) const WAITS_FOR: &str =
    "<text class=\"dim\" font-size=\"10\" x=\"3\" y=\"{0}\">waits for</text>\n";

/// A row's title: the hart that waits, and the ranks that it waits for, one by one.
pub(crate) const WAITS: &str = "<g><title>rank {0} hart {1} waits for";

pub(crate) const AWAITED: &str = " rank {0}";

/// A row behind these: the end of its title (two pieces); the class of its line, from where to where it leads, and how far
/// down; and the class of its begin, and where that stands.
pub(crate) const ROW: &str =
    "{0}{1}</title><line class=\"{2}\" x1=\"{3}\" x2=\"{4}\" y1=\"{5}\" y2=\"{5}\"/><circle class=\"{6}\" r=\"4\" cx=\"{7}\" cy=\"{5}\"/>";

/// A row's head: its shape, its class, and where it stands.
pub(crate) const HEAD: &str = "<use href=\"#{0}\" class=\"{1}\" x=\"{2}\" y=\"{3}\"/>";

/// That a hart waits for its own rank: at which side of its begin that stands, how far beside it, and where.
pub(crate) const OWN: &str =
    "<text class=\"dim\" font-size=\"10\" text-anchor=\"{0}\" dx=\"{1}\" x=\"{2}\" y=\"{3}\">for its own rank</text>";

/// A line of what is told: its class, where it stands, and the line.
pub(crate) const TOLD: &str =
    "<text class=\"{0}\" font-size=\"11\" xml:space=\"preserve\" x=\"{1}\" y=\"{2}\">{3}</text>\n";

// ---- the legend

/// What all messages share: how far down, and the tag, the size and the size's unit.
pub(crate) const ONE_KIND: &str =
    "<text class=\"dim\" font-size=\"10\" x=\"12\" y=\"{0}\">each message: tag {1}, {2} {3}</text>\n";

/// How a message is told where they differ, and what the numbers at the left are: how far down.
pub(crate) const SEVERAL_KINDS: &str =
    "<text class=\"dim wide\" font-size=\"10\" x=\"12\" y=\"{0}\">t7 8B: a message with tag 7 and 8 bytes</text>\n";

pub(crate) const NUMBERS: &str =
    "<text class=\"dim\" font-size=\"10\" x=\"12\" y=\"{0}\">numbers at the left: steps, as in `rvmc debug go=N`</text>\n";

/// The signs of a mark, a bar, a receive of any source and an arrow, and what a sign means: where the sign stands across, in
/// per cent, and down, its shape's name or its class, where a bar begins, where the meaning stands, and the meaning.
pub(crate) const MARK_SIGN: &str =
    "<use href=\"#{2}\" class=\"f0\" transform=\"translate(14 0)\" x=\"{0}%\" y=\"{1}\"/>";

pub(crate) const BAR_SIGN: &str =
    "<rect class=\"{2}\" rx=\"2\" width=\"6\" height=\"12\" transform=\"translate(11 0)\" x=\"{0}%\" y=\"{3}\"/>";

pub(crate) const WILD_SIGN: &str =
    "<use href=\"#ring\" transform=\"translate(14 0)\" x=\"{0}%\" y=\"{1}\"/>";

pub(crate) const ARROW_SIGN: &str =
    "<svg overflow=\"visible\" x=\"{0}%\" y=\"{1}\"><path class=\"a thin {2} s0\" d=\"M4,0h18\"/></svg>";

pub(crate) const MEANING: &str =
    "<text class=\"dim\" font-size=\"10\" dx=\"26\" x=\"{0}%\" y=\"{4}\">{5}</text>\n";
