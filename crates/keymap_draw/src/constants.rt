//! The style and the shapes, which are the same in each picture.

/// The style: colours, sizes of text and its places.
pub(crate) static STYLE: [u8; 1547] = *b"\
<style>\n\
svg{max-width:100%;height:auto;background:#fff;font-family:\"DejaVu Sans\",\"Noto Sans\",\"Segoe UI\",Arial,\
sans-serif;font-size:18px}\n\
text{fill:#1a2030}\n\
.page{fill:#fff}.panel{fill:#d9dee7}.row{fill:#f3f5f9}\n\
use{fill:#fff;color:#b7c0cf}\n\
.g use{fill:#edf0f5;color:#acb6c6}\n\
.m use{fill:#dde8fb;color:#9db4dc}\n\
.p use{fill:#e3e7ee;color:#d0d6e0}\n\
.f use{fill:#ffd9d4;color:#cc463b}\n\
.c{text-anchor:middle}.r{text-anchor:end}\n\
[role=img]:hover>use{color:#4a86e8}\n\
text.a{fill:#00677d}text.d{fill:#981db0}text.e{fill:#a34000}.d,.e{font-size:20px}.z.d,.z.e{font-size:26px}\
text.m{fill:#1c489a}\n\
use+text{font-size:9px;fill:#363f4d}.p use+text{fill:#5a6370}.f use+text{fill:#fff}\n\
.h{font-size:20px;font-weight:bold}.i{font-size:14px;text-anchor:middle}.i text{fill:#545d6c}\
.j{text-anchor:middle}\n\
text.ok{fill:#157a3c}text.no{fill:#c22d20}text.l{font-size:13px}\n\
@media (prefers-color-scheme:dark){\n\
svg{background:#121417}\n\
text{fill:#eef1f6}\n\
.page{fill:#121417}.panel{fill:#20242b}.row{fill:#1b1e24}\n\
use{fill:#3a414d;color:#2a2f38}\n\
.g use{fill:#2f353f;color:#23272f}\n\
.m use{fill:#2a3f66;color:#1e2d4a}\n\
.p use{fill:#272b33;color:#23262d}\n\
.f use{fill:#6e2a25;color:#b5443a}\n\
text.a{fill:#6bd5e6}text.d{fill:#eda4f8}text.e{fill:#ffb066}text.m{fill:#b5cdff}\n\
use+text{fill:#a3adbd}.p use+text{fill:#7a8494}.f use+text{fill:#fff}\n\
.i text{fill:#a3adbd}\n\
text.ok{fill:#6fd694}text.no{fill:#ff8f84}\n\
}\n\
.z{font-size:21px}.w{font-size:16px}.x{font-size:13px}.v{font-size:12px}.o{font-size:11px}.u{font-size:10px}\
.t{font-size:9px}\n\
.y{font-size:8px}.b{font-size:5px}\n\
</style>\n\
";

/// The shapes of caps, which keys use by name. A shape has an edge and on it a face.
pub(crate) static SHAPES: [u8; 1343] = *b"\
<defs><g id=\"a\"><rect fill=\"currentColor\" width=\"60\" height=\"60\" rx=\"7\"/>\
<rect x=\"4\" y=\"2\" width=\"52\" height=\"48\" rx=\"5\"/></g><g id=\"b\">\
<rect fill=\"currentColor\" width=\"76\" height=\"60\" rx=\"7\"/>\
<rect x=\"4\" y=\"2\" width=\"68\" height=\"48\" rx=\"5\"/></g><g id=\"c\">\
<rect fill=\"currentColor\" width=\"92\" height=\"60\" rx=\"7\"/>\
<rect x=\"4\" y=\"2\" width=\"84\" height=\"48\" rx=\"5\"/></g><g id=\"d\">\
<rect fill=\"currentColor\" width=\"108\" height=\"60\" rx=\"7\"/>\
<rect x=\"4\" y=\"2\" width=\"100\" height=\"48\" rx=\"5\"/></g><g id=\"e\">\
<rect fill=\"currentColor\" width=\"124\" height=\"60\" rx=\"7\"/>\
<rect x=\"4\" y=\"2\" width=\"116\" height=\"48\" rx=\"5\"/></g><g id=\"f\">\
<rect fill=\"currentColor\" width=\"140\" height=\"60\" rx=\"7\"/>\
<rect x=\"4\" y=\"2\" width=\"132\" height=\"48\" rx=\"5\"/></g><g id=\"g\">\
<rect fill=\"currentColor\" width=\"172\" height=\"60\" rx=\"7\"/>\
<rect x=\"4\" y=\"2\" width=\"164\" height=\"48\" rx=\"5\"/></g><g id=\"h\">\
<rect fill=\"currentColor\" width=\"396\" height=\"60\" rx=\"7\"/>\
<rect x=\"4\" y=\"2\" width=\"388\" height=\"48\" rx=\"5\"/></g><g id=\"t\">\
<rect fill=\"currentColor\" width=\"60\" height=\"124\" rx=\"7\"/>\
<rect x=\"4\" y=\"2\" width=\"52\" height=\"112\" rx=\"5\"/></g><g id=\"E\">\
<path fill=\"currentColor\" d=\"M7 0H85Q92 0 92 7V117Q92 124 85 124H23Q16 124 16 117V67Q16 60 9 60H7Q0 60 0 \
53V7Q0 0 7 0Z\"/><path d=\"M9 2H83Q88 2 88 7V105Q88 110 83 110H25Q20 110 20 105V53Q20 48 15 48H9Q4 48 4 43V7\
Q4 2 9 2Z\"/></g></defs>\n\
";
