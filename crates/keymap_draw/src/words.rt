//! The words and the markup of the picture, in their order. What is told stands at the places `{}`, in the order in
//! which the contracts list it. What they tell the definitions say in facts of their own.

/// The begin of the picture, with its height twice.
pub(crate) const BEGIN: &[u8] =
    b"<svg xmlns=\"http://www.w3.org/2000/svg\" width=\"1492\" height=\"{}\" viewBox=\"0 0 1492 {}\" \
role=\"graphics-document document\" aria-labelledby=\"title desc\" lang=\"en\">\n";

/// The title of the whole, with the name and whether the keymap is accepted.
pub(crate) const TITLE: &[u8] = b"<title id=\"title\">{}, {}</title>\n";

/// What the picture shows.
pub(crate) const DESCRIPTION: &[u8] = b"<desc id=\"desc\">\
A keyboard. On each key stand base below left, shift above left, alt below right and alt shift above right; \
its title is its line of the keymap.</desc>\n";

pub(crate) const ACCEPTED: &[u8] = b"accepted";

pub(crate) const REFUSED: &[u8] = b"refused";

/// The page, with its height.
pub(crate) const PAGE: &[u8] = b"<rect class=\"page\" width=\"1492\" height=\"{}\"/>\n";

// The headlines of the halves: where they stand, and the name, which half it is or what the check says.
pub(crate) const KEYMAP: &[u8] = b"<text x=\"28\" y=\"{}\" class=\"h\">{}</text>\n";

pub(crate) const LOWER_HALF: &[u8] = b"<text x=\"28\" y=\"{}\" class=\"h\">{}, lower half</text>\n";

pub(crate) const UPPER_HALF: &[u8] =
    b"<text x=\"28\" y=\"{}\" class=\"h\">Upper half: while ashift or alock is on</text>\n";

pub(crate) const IS_ACCEPTED: &[u8] =
    b"<text x=\"1464\" y=\"{}\" class=\"h r ok\">accepted</text>\n";

pub(crate) const ONE_FINDING: &[u8] =
    b"<text x=\"1464\" y=\"{}\" class=\"h r no\">refused: 1 finding</text>\n";

pub(crate) const MORE_FINDINGS: &[u8] =
    b"<text x=\"1464\" y=\"{}\" class=\"h r no\">refused: {} findings</text>\n";

/// The panel of a board, with where it begins.
pub(crate) const PANEL: &[u8] =
    b"<rect class=\"panel\" x=\"16\" y=\"{}\" width=\"1460\" height=\"420\" rx=\"16\"/>\n";

/// The key that shows where the legends stand, with its place and what its number is.
pub(crate) const SAMPLE: &[u8] =
    b"<g aria-hidden=\"true\" transform=\"translate(1212 {})\"><use href=\"#f\"/><text x=\"8\" y=\"57\">\
{}, locks</text><text x=\"10\" y=\"20\" class=\"v\">shift</text><text x=\"10\" y=\"41\" class=\"v\">base</text>\
<text x=\"130\" y=\"20\" class=\"v r a\">alt shift</text><text x=\"130\" y=\"41\" class=\"v r a\">alt</text></g>\n";

pub(crate) const KEY_CODE: &[u8] = b"key code";

pub(crate) const SLOT: &[u8] = b"slot";

/// The line above the keys that the board doesn't have.
pub(crate) const OTHER_KEYS: &[u8] =
    b"<text x=\"28\" y=\"{}\" class=\"l\">Keys that this board doesn&#x0027;t have</text>\n";

/// The begin of a key with its place, and of one with a class: its title and its cap, by the letter of its shape.
pub(crate) const KEY: &[u8] =
    b"<g role=\"img\" transform=\"translate({} {})\"><title>{}{}{}</title><use href=\"#{}\"/>";

pub(crate) const KEY_OF: &[u8] =
    b"<g role=\"img\" class=\"{}\" transform=\"translate({} {})\"><title>{}{}{}</title><use href=\"#{}\"/>";

/// The begin of a key that differs, of whose title the last line tells how.
pub(crate) const CHANGED_KEY: &[u8] =
    b"<g role=\"img\" class=\"{}\" transform=\"translate({} {})\"><title>{}{}{}\n{}</title><use href=\"#{}\"/>";

/// What a key was before a change, with where it stands.
pub(crate) const WAS: &[u8] = b"<text class=\"s\" x=\"{}\" y=\"{}\">{}</text>";

/// The code of a key, with where it stands, the code and the letter of its locks.
pub(crate) const CODE: &[u8] = b"<text x=\"{}\" y=\"{}\">{}{}</text>";

pub(crate) const GROUP_END: &[u8] = b"</g>\n";

// The letters of the locks.
pub(crate) const CAPS: &[u8] = b" C";

pub(crate) const NUM: &[u8] = b" N";

pub(crate) const BOTH: &[u8] = b" B";

/// A text with its place, and one with classes.
pub(crate) const TEXT: &[u8] = b"<text x=\"{}\" y=\"{}\">{}</text>";

pub(crate) const TEXT_OF: &[u8] = b"<text x=\"{}\" y=\"{}\" class=\"{}\">{}</text>";

/// A text with its place and classes, and the length to which it is shrunk.
pub(crate) const SHRUNK_TEXT: &[u8] =
    b"<text x=\"{}\" y=\"{}\" class=\"{}\" textLength=\"{}\" lengthAdjust=\"spacingAndGlyphs\">{}</text>";

/// The style of a picture of a change.
pub(crate) const CHANGE_STYLE: &[u8] = b"<style>\n\
.n use{color:#e08700}.q use{color:#f1c27d}.n use+text,.q use+text,.n>.s,.q>.s{fill:#2b1a00}\
.n>.s,.q>.s{font-size:10px;text-anchor:end}\n\
rect.n{fill:#ffe7c2}\n\
@media (prefers-color-scheme:dark){\n\
.n use{color:#e09a35}.q use{color:#80591f}.n use+text,.n>.s{fill:#1c1000}.q use+text,.q>.s{fill:#ffe2b0}\
rect.n{fill:#4a3413}\n\
}\n\
</style>\n";

// The headline of what changed: where it stands, the name of the keymap before, and that nothing has changed; so many of
// something; or so many of two things.
pub(crate) const CHANGED: &[u8] =
    b"<text x=\"28\" y=\"{}\" class=\"h\">Changed from {}: {}</text>\n";

pub(crate) const CHANGED_IN: &[u8] =
    b"<text x=\"28\" y=\"{}\" class=\"h\">Changed from {}: {} {}</text>\n";

pub(crate) const CHANGED_IN_BOTH: &[u8] =
    b"<text x=\"28\" y=\"{}\" class=\"h\">Changed from {}: {} {}, {} {}</text>\n";

pub(crate) const NOTHING: &[u8] = b"nothing";

/// A row of the list of what changed: where it stands, and what it says.
pub(crate) const LISTED_CHANGE: &[u8] =
    b"<text x=\"28\" y=\"{}\" class=\"l\" xml:space=\"preserve\">{}</text>\n";

/// What the marks mean, below that list, with where it stands.
pub(crate) const MARKS: &[u8] = b"<text x=\"28\" y=\"{}\" class=\"l\" xml:space=\"preserve\">\
Amber: base or shift differs; pale amber: only other columns, or the lock letter. \
Below right on a changed key stands what it was, in the first of its four cells that differs.</text>\n";

/// The headline of the findings, with where it stands.
pub(crate) const FINDINGS: &[u8] = b"<text x=\"28\" y=\"{}\" class=\"h no\">Findings</text>\n";

/// A finding of the list: where it stands, and what it says.
pub(crate) const LISTED_FINDING: &[u8] = b"<text x=\"{}\" y=\"{}\" class=\"l no\">{}</text>\n";

/// The headline of the accents, with where it stands.
pub(crate) const ACCENTS: &[u8] = b"<text x=\"28\" y=\"{}\" class=\"h\">Accents</text>\n";

/// The begin of an accent, with where it stands and its title.
pub(crate) const ACCENT: &[u8] =
    b"<g role=\"img\" transform=\"translate(16 {})\"><title>{}</title><rect class=\"row\" width=\"1460\" \
height=\"48\" rx=\"8\"/>";

/// The begin of an accent that differs, of whose title the last line tells how.
pub(crate) const CHANGED_ACCENT: &[u8] =
    b"<g role=\"img\" transform=\"translate(16 {})\"><title>{}\n{}</title><rect class=\"row n\" width=\"1460\" \
height=\"48\" rx=\"8\"/>";

// The table of an accent: before the bases of its pairs, before their results, and behind these.
pub(crate) const BASES: &[u8] = b"<g class=\"i\" transform=\"translate(124 17)\">";

pub(crate) const RESULTS: &[u8] = b"</g><g class=\"j\" transform=\"translate(124 39)\">";

pub(crate) const TABLE_END: &[u8] = b"</g></g>\n";

/// A character of that table, with where it stands, and one with a class.
pub(crate) const COMPOSED: &[u8] = b"<text x=\"{}\">{}</text>";

pub(crate) const COMPOSED_OF: &[u8] = b"<text x=\"{}\" class=\"{}\">{}</text>";

/// The sign of an accent, with where it stands and the class for its colour, and its name, with where that stands.
pub(crate) const SIGN: &[u8] =
    b"<text x=\"{}\" y=\"35\" class=\"z c {}\">{}</text><text x=\"{}\" y=\"30\" class=\"l\">{}</text>";

/// The line above the dead keys without an accent and the begin of their row, with where these stand.
pub(crate) const SILENT: &[u8] =
    b"<text x=\"28\" y=\"{}\" class=\"l\">Dead keys without an accent: the console answers them with an error</text>\n\
<g transform=\"translate(16 {})\"><rect class=\"row\" width=\"1460\" height=\"48\" rx=\"8\"/>";

/// What the colours and the places of legends mean, below the keys, with where that stands; and the end.
pub(crate) const END: &[u8] = b"<g aria-hidden=\"true\" transform=\"translate(0 {})\">\
<g transform=\"translate(28 0)\"><use href=\"#a\"/><text x=\"8\" y=\"57\">13</text>\
<text x=\"30\" y=\"33\" class=\"z c d\">&#x25cc;&#x0301;</text></g><text x=\"100\" y=\"34\" class=\"l\">\
dead key</text><g class=\"m\" transform=\"translate(196 0)\"><use href=\"#a\"/><text x=\"8\" y=\"57\">\
93</text><text x=\"30\" y=\"30\" class=\"x c m\">ralt</text></g><text x=\"268\" y=\"34\" class=\"l\">\
modifier or lock</text><g class=\"f\" transform=\"translate(412 0)\"><use href=\"#a\"/>\
<text x=\"8\" y=\"57\">9</text></g><text x=\"484\" y=\"26\" class=\"l\">\
a finding of check: modifier or</text><text x=\"484\" y=\"44\" class=\"l\">\
lock and character on one key</text><g class=\"p\" transform=\"translate(740 0)\"><use href=\"#a\"/>\
<text x=\"8\" y=\"57\">85</text></g><text x=\"812\" y=\"34\" class=\"l\">nop and nul only</text>\
<g transform=\"translate(952 0)\"><use href=\"#a\"/><text x=\"8\" y=\"57\">16 C</text>\
<text x=\"10\" y=\"20\">Q</text></g><text x=\"1024\" y=\"16\" class=\"l\">\
A capital stands for its small letter too. A letter behind</text><text x=\"1024\" y=\"34\" class=\"l\">\
the code: locks that turn shift around (C caps, N num, B both).</text><text x=\"1024\" y=\"52\" class=\"l\">\
All eight columns stand in the title of each key.</text></g>\n</svg>\n";
