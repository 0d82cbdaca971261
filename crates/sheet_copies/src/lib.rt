#![tactic(auto)]
// A copy line of a job sheet, with the records that it names: its plan or refusal.
ghost use Rattle.std.specs.Prelude.{◌≡◌, ◌<◌, ◌∷◌, [], Ok, get_or};
ghost use Rattle.refusals.specs.Order.{refuse_if, decided};
ghost use Rattle.refusals.specs.declared.TransferError.TheVariants.{InvalidSheetIndex};
ghost use Rattle.sheet_records.specs.Records.{word_of};
ghost use Rattle.sheet_copies.specs.Answers.{device_at};
ghost use Rattle.sheet_copies.specs.CopyLines.{buffer_at, buffer_side_at, texture_side_at, linear_copy, past, buffers_planned, upload_planned, download_planned, memory_planned, textures_planned, line_planned};

mod places;

use copy_buffer_texture::LinearTextureCopy;
use copy_buffers::BufferSide;
use copy_kinds::Ranges;
pub use places::Places;
use plan_kinds::Plan;
use records::{Buffer, Device, TextureSide};
use refusals::TransferError;
use sheet_fields::Line;
use sheet_sections::{CopyKind, Parts, Section};

// Where the line of a record begins. An index past its section is refused.
#[tactic(auto, using(refusals::proofs::Order::ordered), unfolding(crate::specs::CopyLines::past, refusals::specs::Order::decided))]
fn find_place(places: &[usize], k: u32) -> Result<usize, TransferError>
    ensures { result ≡ decided (refuse_if (past places.now k) InvalidSheetIndex ∷ []) (Ok (get_or places.now k 0)) }
{
    let place = places.get(k as usize).copied();
    place.ok_or(TransferError::InvalidSheetIndex)
}

// What a copy line is read with: the sheet's bytes, where its texture and buffer lines begin, and its device.
#[derive(Clone, Copy)]
pub struct Sheet<'a> {
    pub text: &'a [u8],
    pub textures: &'a [usize],
    pub buffers: &'a [usize],
    pub device: Device,
}

impl Sheet<'_> {
    // The buffer that a field names, with its index. Inlined: a call would copy the line, which is long.
    #[inline(always)]
    fn buffer_at(self, l: Line, i: usize) -> Result<(u32, Buffer), TransferError>
        ensures { result ≡ decided (refuse_if (past self.entry.buffers.now (word_of l i)) InvalidSheetIndex ∷ []) (Ok (word_of l i, buffer_at self.entry.text.now self.entry.buffers.now (word_of l i))) }
    {
        let index = sheet_records::word_of(l, i);
        let place = find_place(self.buffers, index)?;
        let row = sheet_sections::read_row(self.text, Section::Buffers, place);
        Ok((index, sheet_records::buffer_of(row)))
    }

    // A buffer and the offset in it, from a field on.
    fn buffer_side_at(self, l: Line, i: usize) -> Result<BufferSide, TransferError>
        requires { i < 16 }
        ensures { result ≡ decided (refuse_if (past self.entry.buffers.now (word_of l i)) InvalidSheetIndex ∷ []) (Ok (buffer_side_at self.entry.text.now self.entry.buffers.now l i)) }
    {
        let (index, buffer) = self.buffer_at(l, i)?;
        Ok(BufferSide {
            index,
            buffer,
            offset: sheet_records::value_of(l, i + 1),
        })
    }

    // The texture and the part of it that the fields from one on name, with the texture's index. Inlined for the same reason.
    #[inline(always)]
    fn texture_side_at(self, l: Line, i: usize) -> Result<(u32, TextureSide), TransferError>
        requires { i < 16 }
        ensures { result ≡ decided (refuse_if (past self.entry.textures.now (word_of l i)) InvalidSheetIndex ∷ []) (Ok (word_of l i, texture_side_at self.entry.text.now self.entry.textures.now l i)) }
    {
        let index = sheet_records::word_of(l, i);
        let place = find_place(self.textures, index)?;
        let row = sheet_sections::read_row(self.text, Section::Textures, place);
        let side = TextureSide {
            texture: sheet_records::texture_of(row),
            view: sheet_records::view_of(l, i + 1),
        };
        Ok((index, side))
    }

    fn plan_buffers(self, l: Line) -> Result<(Plan, Ranges), TransferError>
        ensures { result ≡ buffers_planned self.entry.text.now self.entry.buffers.now self.entry.device l }
    {
        let src = self.buffer_side_at(l, 1)?;
        let dst = self.buffer_side_at(l, 3)?;
        let size = sheet_records::size_of(l);
        copy_kinds::plan_buffers(self.device, src, dst, size)
    }

    // The copy between a texture and a buffer, or memory, of whose line the other fields are read here.
    fn linear_copy(self, l: Line, texture: TextureSide) -> LinearTextureCopy
        ensures { result ≡ linear_copy self.entry.device l texture }
    {
        LinearTextureCopy {
            device: self.device,
            layout: sheet_records::layout_of(l),
            texture,
            size: sheet_records::extent_of(l, 11),
        }
    }

    fn plan_upload(self, l: Line) -> Result<(Plan, Ranges), TransferError>
        ensures { result ≡ upload_planned self.entry.text.now self.entry.textures.now self.entry.buffers.now self.entry.device l }
    {
        let (i, src) = self.buffer_at(l, 1)?;
        let (j, dst) = self.texture_side_at(l, 5)?;
        copy_kinds::plan_upload(i, src, j, self.linear_copy(l, dst))
    }

    fn plan_download(self, l: Line) -> Result<(Plan, Ranges), TransferError>
        ensures { result ≡ download_planned self.entry.text.now self.entry.textures.now self.entry.buffers.now self.entry.device l }
    {
        let (i, dst) = self.buffer_at(l, 1)?;
        let (j, src) = self.texture_side_at(l, 5)?;
        copy_kinds::plan_download(j, self.linear_copy(l, src), i, dst)
    }

    fn plan_memory(self, l: Line) -> Result<(Plan, Ranges), TransferError>
        ensures { result ≡ memory_planned self.entry.text.now self.entry.textures.now self.entry.device l }
    {
        let (j, dst) = self.texture_side_at(l, 5)?;
        let length = sheet_records::value_of(l, 1);
        copy_kinds::plan_memory_upload(length, j, self.linear_copy(l, dst))
    }

    fn plan_textures(self, l: Line) -> Result<(Plan, Ranges), TransferError>
        ensures { result ≡ textures_planned self.entry.text.now self.entry.textures.now l }
    {
        let (i, src) = self.texture_side_at(l, 1)?;
        let (j, dst) = self.texture_side_at(l, 7)?;
        let size = sheet_records::extent_of(l, 13);
        copy_kinds::plan_textures(i, src, j, dst, size)
    }

    // The plan of a copy line, or its refusal. A line whose kind is ill, which no good sheet has, counts as a download's.
    #[tactic(auto, using(crate::proofs::Named::by_kind))]
    pub fn plan_line(self, l: Line) -> Result<(Plan, Ranges), TransferError>
        ensures { result ≡ line_planned self.entry.text.now self.entry.textures.now self.entry.buffers.now self.entry.device l }
    {
        match CopyKind::try_from(sheet_records::value_of(l, 0)) {
            Ok(CopyKind::Buffers) => self.plan_buffers(l),
            Ok(CopyKind::Upload) => self.plan_upload(l),
            Ok(CopyKind::Textures) => self.plan_textures(l),
            Ok(CopyKind::Memory) => self.plan_memory(l),
            Ok(CopyKind::Download) | Err(_) => self.plan_download(l),
        }
    }
}

// The device of a good sheet.
#[tactic(auto, unfolding(crate::specs::Answers::device_at))]
pub fn device_at(s: &[u8], p: Parts) -> Device
    ensures { result ≡ device_at s.now p }
{
    let devices = p.devices;
    sheet_records::device_of(sheet_sections::read_row(s, Section::Devices, devices.first))
}
