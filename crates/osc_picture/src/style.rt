// How the elements of a picture look.
ghost use Rattle.std.specs.Prelude.{◌≡◌};
ghost use Rattle.osc_picture.specs.Styles as spec;

/// How a picture begins, up to its height.
#[tactic(auto, unfolding(crate::specs::Styles::svg_front))]
pub(crate) fn svg_front() -> &'static [u8]
    ensures { result.now ≡ spec.svg_front }
{
    b"<svg xmlns=\"http://www.w3.org/2000/svg\" viewBox=\"0 0 8000 "
}

/// What stands before the height of the picture, and after it. A narrow page has larger text, and a
/// dark one other colours.
#[tactic(auto, unfolding(crate::specs::Styles::style_front))]
pub(crate) fn style_front() -> &'static [u8]
    ensures { result.now ≡ spec.style_front }
{
    b"\n\
      svg{background:#fff;height:auto;aspect-ratio:8000/"
}

#[tactic(auto, unfolding(crate::specs::Styles::style_rest))]
pub(crate) fn style_rest() -> &'static [u8]
    ensures { result.now ≡ spec.style_rest }
{
    b"}\n\
      text{font:112px system-ui,sans-serif;fill:#555}\n\
      .t{font-size:180px;font-weight:600;fill:#111}\n\
      .g{font:600 120px ui-monospace,Menlo,Consolas,monospace;fill:#111}\n\
      .a,.q{font:120px ui-monospace,Menlo,Consolas,monospace;fill:#111}\n\
      .v{font-size:80px}\n\
      .p{fill:#fff}\n\
      .l{fill:#f0f1f4}\n\
      path{fill:none;stroke:#111;stroke-width:10}\n\
      .s{stroke:#d4d6db;stroke-width:8}\n\
      .j{stroke:#8a8f99;stroke-width:5}\n\
      .k{stroke-width:5}\n\
      .c{stroke:#0a5fc2;stroke-width:13}\n\
      .w{stroke:#555;stroke-width:10;stroke-dasharray:12 24}\n\
      .o{stroke-width:10}\n\
      .x{stroke:#c4141c;stroke-width:20}\n\
      .e{text-anchor:end}\n\
      .m{text-anchor:middle}\n\
      @media(max-width:500px){text,.g{font-size:180px}.t{font-size:220px}.a{font-size:164p\
      x}.q{font-size:140px}.v{font-size:120px}.h{display:none}\n\
      path{stroke-width:18}.k{stroke-width:12}.c{stroke-width:22}}\n\
      @media(prefers-color-scheme:dark){svg{background:#15171b}.p{fill:#15171b}text{fill:#\
      a8adb8}.t,.g,.a,.q{fill:#f2f3f5}.l{fill:#212429}\n\
      path{stroke:#f2f3f5}.s{stroke:#3a3e46}.j{stroke:#7d838f}.c{stroke:#6db3ff}.w{stroke:\
      #a8adb8}.x{stroke:#ff6b6b}}\n"
}
