// The numbers within a setup are of their types, which contracts on the whole setup don't see.
ghost use Rattle.world_machine.specs.ByteBounds.{AreBytes, ArePageBytes, AreImageBytes};
ghost use Rattle.world_machine.specs.LineNumbers.{FitsWord, NumbersFit, LinesFit, ScriptsFit};

use mon_image::{Image, ImagePage};
use pl_base::Listed;
use pl_history::{Line, Setup};

fn page_fits(page: &ImagePage)
    ensures { AreBytes page.now.bytes }
{
    let _ = page.bytes.as_slice();
}

fn pages_fit(pages: &[ImagePage])
    ensures { ArePageBytes pages.now }
{
    for page in pages {
        page_fits(page);
    }
}

fn images_fit(images: &[Image])
    ensures { AreImageBytes images.now }
{
    for image in images {
        pages_fit(image.pages.as_slice());
    }
}

fn word_fits(number: u32)
    ensures { FitsWord number }
{
    let _ = number;
}

fn line_fits(line: &Line)
    ensures { NumbersFit line.now }
{
    match line {
        Line::Map { page, .. } => word_fits(*page),
        Line::Run { budget, .. } | Line::Resume { budget, .. } => word_fits(*budget),
        _ => {}
    }
}

fn lines_fit(lines: &[Line])
    ensures { LinesFit lines.now }
{
    for line in lines {
        line_fits(line);
    }
}

fn scripts_fit(scripts: &[Listed<Line>])
    ensures { ScriptsFit scripts.now }
{
    for lines in scripts {
        lines_fit(lines.as_slice());
    }
}

/// The bytes of a setup's images are below 256, and the page numbers and budgets of its lines below 2^32, as their types say. It reads no
/// byte and no number: a walk over pages and lines, for the contracts.
pub fn numbers_fit(setup: &Setup)
    ensures bytes { AreImageBytes setup.now.images }
    ensures lines { ScriptsFit setup.now.lines }
{
    let parts = setup.parts();
    images_fit(parts.images.as_slice());
    scripts_fit(parts.lines.as_slice());
}
