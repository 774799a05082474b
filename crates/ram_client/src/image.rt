//! A client is served the disc in the image of a name.
ghost use Rattle.std.specs.Prelude.{◌≡◌, ℕ, List, map};
ghost use Rattle.model_geometry.specs.declared.kinds.LayoutKind.TheVariants.{OneGroup};
ghost use Rattle.ram_text.specs.Faults.{AreFaultWords};
ghost use Rattle.ram_text.specs.declared.script.Line.{Line};
ghost use Rattle.ram_script.specs.Around.{around};
ghost use Rattle.ram_opening.specs.Faults.{ReadAsFaults};
ghost use Rattle.ram_serve.specs.Rooms.{AreReadyToServe};
ghost use Rattle.ram_client.specs.Ends.{IsOfSession};
ghost use Rattle.ram_client.specs.Serving.{ServesClient};

use crate::session::serve_client;
use ram_cache::Cached;
use ram_image::ImageMedium;
use ram_machine::status::Status;
use ram_outside::{Conversation, Opened, Opener};
use ram_serve::SessionRooms;
use ram_volume::Volume;

/// Serves a client the disc in the image of this name, after the faults that these words read as. The image is closed on every way out.
///
/// # Clauses
///
/// - `other` (`IsOfSession`): which statuses there are, whatever is known.
/// - `keeps` (`ServesClient`): what is promised, of the faults that the words read as.
///
/// # Answers
///
/// - `Done`, `Script`, `SourceFault`, `SinkFault`: as for `serve_client`. Then: the image is as the session leaves it. (`SessionStands`)
/// - `ImageFault`: the opener or the image counted a failure. Then: nothing was opened (`IsNotOpened`); or as for `serve_client`, and the
///   image has the bytes right after the first of its calls that failed. (`SessionStands`, `EndsAtFailure`)
/// - `Differs`, `Usage`, `NoMemory`: never. (`IsOfSession`)
/// - `NotADisc`: never where the bytes are known. (`SessionStands`)
pub fn serve_image<T: Conversation, O: Opener>(
    rooms: SessionRooms,
    name: &str,
    words: &[&str],
    talk: &mut T,
    opener: &mut O,
) -> Status
    requires ready { AreReadyToServe OneGroup rooms }
    requires reads { ReadAsFaults (map (λ word. word.now) words.now) }
    ensures other { IsOfSession result }
    ensures keeps { (faults : List Line) → AreFaultWords (map (λ word. word.now) words.now) faults
        → ServesClient O.Image.bytes O.Image.past O.returned_known
        (around T.Conversation T.Sink.Sink O.Opener talk.old opener.old)
        (around T.Conversation T.Sink.Sink O.Opener talk.new opener.new) result name.now faults }
{
    match opener.open(name) {
        Opened::Failed => Status::ImageFault,
        Opened::Image(image) => {
            let (image, status) = serve_client::<Cached<Volume<ImageMedium<O::Image>>>, T>(
                rooms, image, words, talk,
            );
            opener.close(image);
            status
        }
    }
}
