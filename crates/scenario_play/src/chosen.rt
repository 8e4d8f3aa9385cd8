// The encoder that a scenario chose.
use amqp::error::MemoryError;
use amqp::header::Header;
use codec::compact::Compact;
use codec::encoder::Encoder;
use codec::wide::Wide;
use scenario_text::command::EncoderForm;

#[derive(Clone, Copy)]
pub struct Chosen(pub EncoderForm);

impl Encoder for Chosen {
    ghost use Rattle.scenario_play.specs.Chosens.{bytes_of, widest_of};

    ghost bytes = { λ c h. bytes_of c.0 h };

    ghost widest = { λ c h. widest_of c.0 h };

    fn size(&self, header: &Header) -> usize {
        match self.0 {
            EncoderForm::Compact => Compact.size(header),
            EncoderForm::Wide => Wide.size(header),
        }
    }

    fn write(&self, header: &Header, out: &mut [u8]) -> Result<usize, MemoryError> {
        match self.0 {
            EncoderForm::Compact => Compact.write(header, out),
            EncoderForm::Wide => Wide.write(header, out),
        }
    }
}
