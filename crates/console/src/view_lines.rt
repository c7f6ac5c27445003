// The lines of a stored image, `view-block IMAGE PLACE` and `view-check IMAGE PLACE`.
use crate::answers::Answers;
use crate::words::Words;
use image_view::{Refused, View};

// `MADE BLOCKS N PART`. Where the view is refused it is empty, and where it has no such block the part is.
pub fn answer<S>(words: &mut Words, answers: &mut Answers, show: S) -> Option<()>
where
    S: FnOnce(View, usize) -> Result<&[u8], Refused<&[u8]>>,
    requires { S.IsAlwaysCallable show }
{
    let image = words.bytes()?;
    let place = words.number()?;
    words.end()?;
    let (made, view) = image_view::with_number(View::of(image));
    let (number, part) = image_view::with_number(show(view, place));
    answers.begin(made);
    answers.number(image_view::blocks(view.image) as u64);
    answers.number(number.into());
    answers.bytes(part);
    Some(())
}
