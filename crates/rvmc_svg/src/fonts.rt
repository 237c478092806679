//! Colours, shapes and sizes.

/// Styles, in light and dark. Okabe and Ito's colours, one a sender, darkened where white paper wants it.
pub(crate) const STYLE: &str = "\
<style>
svg{max-width:100%;background:#fff}
.ink{fill:#1c1c1c}.dim{fill:#666}.lane{stroke:#bcbcbc}.band{fill:#000;opacity:.03}
.halo{paint-order:stroke;stroke:#fff;stroke-width:3px;stroke-linejoin:round}
.mark{stroke:#1c1c1c;stroke-width:1.2}.open{fill:#fff}.full{fill:#1c1c1c}.none{fill:none}
.wait{fill:#ded7c0}.ever{fill:#f3b8ac;stroke:#c62f1b}.red{fill:#a52312}.rule{stroke:#c62f1b;stroke-width:1.5}
.a{fill:none;stroke-width:1.4}.thin{stroke-width:.9}.far{stroke-dasharray:1.5 3.5}.lost{stroke-dasharray:4 2}
.claim{stroke-dasharray:1 3}.part{stroke-width:.7}.ribbon{opacity:.13}
g:hover>.a{stroke-width:3}.bold{font-weight:600}
.s0{stroke:#0072b2}.s1{stroke:#b34e00}.s2{stroke:#007a58}.s3{stroke:#a6518a}
.s4{stroke:#8a6d00}.s5{stroke:#2b76a5}.s6{stroke:#7a4a00}.s7{stroke:#555}
.f0{fill:#0072b2}.f1{fill:#b34e00}.f2{fill:#007a58}.f3{fill:#a6518a}
.f4{fill:#8a6d00}.f5{fill:#2b76a5}.f6{fill:#7a4a00}.f7{fill:#555}
@media (prefers-color-scheme:dark){
svg{background:#16181b}
.ink{fill:#e8e8e8}.dim{fill:#a6a6a6}.lane{stroke:#555}.band{fill:#fff;opacity:.04}.halo{stroke:#16181b}
.mark{stroke:#e8e8e8}.open{fill:#16181b}.full{fill:#e8e8e8}.wait{fill:#6b6344}.ever{fill:#6b2a20;stroke:#ff7d66}
.red{fill:#ff9c8a}.rule{stroke:#ff7d66}.ribbon{opacity:.2}
.s0{stroke:#56b4e9}.s1{stroke:#ff8a3d}.s2{stroke:#2fd6a3}.s3{stroke:#e59ccb}
.s4{stroke:#f0e442}.s5{stroke:#9fd3ff}.s6{stroke:#d9a066}.s7{stroke:#bbb}
.f0{fill:#56b4e9}.f1{fill:#ff8a3d}.f2{fill:#2fd6a3}.f3{fill:#e59ccb}
.f4{fill:#f0e442}.f5{fill:#9fd3ff}.f6{fill:#d9a066}.f7{fill:#bbb}}
@media (max-width:700px){svg{min-width:0!important}.wide{display:none}.dim,.ink{font-size:11px}}
</style>
";

/// The shapes of marks, each round its own middle.
pub(crate) const SHAPES: &str = "\
<defs>
<g id=\"send\"><circle class=\"mark\" r=\"4\"/></g>
<g id=\"ssend\"><circle class=\"mark\" r=\"4\"/><circle class=\"mark none\" r=\"6.8\"/></g>
<g id=\"posted\"><path class=\"mark open\" d=\"M-5,-4h10l-5,8z\"/></g>
<g id=\"got\"><path class=\"mark full\" d=\"M-5,-4h10l-5,8z\"/></g>
<g id=\"claimed\"><path class=\"mark full\" d=\"M0,-5.5l5.5,5.5l-5.5,5.5l-5.5,-5.5z\"/></g>
<g id=\"seen\"><path class=\"mark open\" d=\"M0,-5.5l5.5,5.5l-5.5,5.5l-5.5,-5.5z\"/></g>
<g id=\"done\"><circle class=\"mark full\" r=\"2.6\"/></g>
<g id=\"ready\"><path class=\"mark\" d=\"M-3.5,-3.5h7v7h-7z\"/></g>
<g id=\"taken\"><path class=\"mark full\" d=\"M-3.5,-3.5h7v7h-7z\"/></g>
<g id=\"freed\"><path class=\"mark open\" d=\"M-2.5,-2.5h5v5h-5z\"/></g>
<g id=\"put\"><path class=\"mark\" d=\"M0,0h7\"/></g>
<g id=\"exit\"><path class=\"mark\" stroke-width=\"3\" d=\"M-7,0h14\"/></g>
<g id=\"trap\"><path class=\"rule\" stroke-width=\"3\" d=\"M-5,-5l10,10m0,-10l-10,10\"/></g>
<g id=\"refused\"><circle class=\"mark open\" r=\"4\"/><path class=\"rule\" d=\"M-2.8,-2.8l5.6,5.6\"/></g>
<g id=\"look\"><path class=\"mark\" stroke-width=\"1\" d=\"M-4,0h8\"/></g>
<g id=\"other\"><circle class=\"mark open\" r=\"2.4\"/></g>
<g id=\"ring\"><circle class=\"mark none\" stroke-dasharray=\"2 1.5\" r=\"7.5\"/></g>
<g id=\"to-left\"><path d=\"M0,0l10,-4v8z\"/></g>
<g id=\"to-right\"><path d=\"M0,0l-10,-4v8z\"/></g>
</defs>
";
