//! The names of elements and attributes: no others can be written.

ghost use Rattle.std.specs.Prelude.{◌≡◌};
ghost use Rattle.cics_picture.specs.Xml.Names.{tag_name, key_name};

/// An element of SVG or of HTML.
#[derive(Clone, Copy)]
pub enum Tag {
    Svg,
    Title,
    Style,
    G,
    Rect,
    Line,
    Path,
    Text,
    B,
    Code,
    Del,
    Div,
    H1,
    I,
    Ins,
    Li,
    Ol,
    P,
    Pre,
    Samp,
}

impl Tag {
    /// Returns the name as it is written.
    pub fn name(self) -> &'static str
        ensures { result.now ≡ tag_name self }
    {
        match self {
            Tag::Svg => "svg",
            Tag::Title => "title",
            Tag::Style => "style",
            Tag::G => "g",
            Tag::Rect => "rect",
            Tag::Line => "line",
            Tag::Path => "path",
            Tag::Text => "text",
            Tag::B => "b",
            Tag::Code => "code",
            Tag::Del => "del",
            Tag::Div => "div",
            Tag::H1 => "h1",
            Tag::I => "i",
            Tag::Ins => "ins",
            Tag::Li => "li",
            Tag::Ol => "ol",
            Tag::P => "p",
            Tag::Pre => "pre",
            Tag::Samp => "samp",
        }
    }
}

/// An attribute of such an element.
#[derive(Clone, Copy)]
pub enum Key {
    Class,
    D,
    Height,
    Id,
    Transform,
    Width,
    X,
    X1,
    X2,
    Xmlns,
    Y,
    Y1,
    Y2,
}

impl Key {
    /// Returns the name as it is written.
    pub fn name(self) -> &'static str
        ensures { result.now ≡ key_name self }
    {
        match self {
            Key::Class => "class",
            Key::D => "d",
            Key::Height => "height",
            Key::Id => "id",
            Key::Transform => "transform",
            Key::Width => "width",
            Key::X => "x",
            Key::X1 => "x1",
            Key::X2 => "x2",
            Key::Xmlns => "xmlns",
            Key::Y => "y",
            Key::Y1 => "y1",
            Key::Y2 => "y2",
        }
    }
}
