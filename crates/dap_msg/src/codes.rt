//! The numbers of the protocol, named once for both ends (DAP 5.6.0; which of them have a meaning here is a choice of
//! this implementation).

ghost use Rattle.std.specs.Prelude.{◌≡◌};
ghost use Rattle.dap_msg.specs.Codes as codes;

/// The type of a Configuration message (DAP 5.6.0, message format).
pub const TYPE_CONFIGURATION: u8 = 1;

/// The type of an Attributes message.
pub const TYPE_ATTRIBUTES: u8 = 2;

/// The type of an Access message.
pub const TYPE_ACCESS: u8 = 3;

/// The type of a Control message.
pub const TYPE_CONTROL: u8 = 4;

/// The type of a Continue Transfer message.
pub const TYPE_CONTINUE: u8 = 5;

/// The type of an Acknowledge message.
pub const TYPE_ACKNOWLEDGE: u8 = 6;

/// The type of an Access Complete message.
pub const TYPE_COMPLETE: u8 = 7;

/// The type of a Data message.
pub const TYPE_DATA: u8 = 8;

/// The type of a Status message.
pub const TYPE_STATUS: u8 = 9;
/// No message has a greater type; those above 9 are kept as bytes.
pub const MAX_TYPE: u8 = 16;

/// ACCFUNC (DAP 5.6.0, Access message): to open a file that is there.
pub const ACCFUNC_OPEN: u8 = 1;
/// To make a new file.
pub const ACCFUNC_CREATE: u8 = 2;
/// To remove a file that is there.
pub const ACCFUNC_ERASE: u8 = 4;

/// CTLFUNC (DAP 5.6.0, Control message): to read a record, or the whole file.
pub const CTLFUNC_GET: u8 = 1;
/// To begin a stream of records.
pub const CTLFUNC_CONNECT: u8 = 2;
/// To replace the current record.
pub const CTLFUNC_UPDATE: u8 = 3;
/// To write a record, or records until the stream ends.
pub const CTLFUNC_PUT: u8 = 4;
/// To remove the current record.
pub const CTLFUNC_DELETE: u8 = 5;
/// To go back to the first record.
pub const CTLFUNC_REWIND: u8 = 6;

/// RAC (DAP 5.6.0, Control message): the next record.
pub const RAC_SEQUENTIAL: u8 = 0;
/// The record of a key.
pub const RAC_KEYED: u8 = 1;
/// The record of a record file address.
pub const RAC_ADDRESS: u8 = 2;
/// All records from the next on.
pub const RAC_WHOLE_FILE: u8 = 3;

/// CONFUNC (DAP 5.6.0, Continue Transfer message): to try the record again.
pub const CONFUNC_AGAIN: u8 = 1;
/// To go on after the record.
pub const CONFUNC_SKIP: u8 = 2;
/// To end the transfer.
pub const CONFUNC_ABORT: u8 = 3;
/// To go on.
pub const CONFUNC_RESUME: u8 = 4;

/// CMPFUNC (DAP 5.6.0, Access Complete message): to close the file.
pub const CMPFUNC_CLOSE: u8 = 1;
/// The response to an Access Complete.
pub const CMPFUNC_RESPONSE: u8 = 2;
/// To close the file, and to remove it where this Access made it.
pub const CMPFUNC_PURGE: u8 = 3;
/// To end the stream.
pub const CMPFUNC_END_OF_STREAM: u8 = 4;
/// To leave out the records that are left.
pub const CMPFUNC_SKIP: u8 = 5;

/// ORG (DAP 5.6.0, Attributes message): records in the order in which they came.
pub const ORG_SEQUENTIAL: u8 = 0;
/// Records by number.
pub const ORG_RELATIVE: u8 = 16;

/// RFM (DAP 5.6.0, Attributes message): records of one length.
pub const RFM_FIXED: u8 = 1;
/// Records of any length.
pub const RFM_VARIABLE: u8 = 2;

/// MACCODE (DAP 5.6.0, Status message): the operation is done.
pub const MACCODE_SUCCESS: u8 = 1;

/// STSCODE (DAP 5.6.0, Status message): the operation is done.
pub const SUCCESS: u16 = 0x1000;
/// An Access to open finds no file of the name.
pub const FILE_NOT_FOUND: u16 = 0x4032;
/// An Access is refused, for the reason in STV.
pub const ACCESS_REFUSED: u16 = 0x4000;
/// An operation on a record is refused, for the reason in STV.
pub const RECORD_REFUSED: u16 = 0x5000;
/// No record follows.
pub const END_OF_FILE: u16 = 0x5027;

/// STV: the one byte beside [`ACCESS_REFUSED`] and [`RECORD_REFUSED`]. There is a file of the name.
pub const REASON_FILE_EXISTS: u8 = 1;
/// The file was not opened for the operation.
pub const REASON_NOT_PERMITTED: u8 = 2;
/// No record is current.
pub const REASON_NO_CURRENT: u8 = 3;
/// There is no record of the number.
pub const REASON_RECORD_NOT_FOUND: u8 = 4;
/// There is a record of the number.
pub const REASON_RECORD_EXISTS: u8 = 5;
/// No record may have the number.
pub const REASON_NUMBER_OUT_OF_RANGE: u8 = 6;
/// No record of the file may have this length.
pub const REASON_BAD_LENGTH: u8 = 7;
/// The file's records are not found so.
pub const REASON_BAD_ACCESS_MODE: u8 = 8;
/// Nothing is removed from a file of this organization.
pub const REASON_DELETE_NOT_ALLOWED: u8 = 9;
/// The record's Data message is longer than the peer takes.
pub const REASON_TOO_LARGE_FOR_BUFFER: u8 = 10;
/// No file has these attributes.
pub const REASON_BAD_ATTRIBUTES: u8 = 11;
/// The key is no number.
pub const REASON_BAD_KEY: u8 = 12;

/// STSCODE of RMS's errors, from memory: [`ACCESS_REFUSED`], and MICCODE says that there is a file of the name.
pub const RMS_FILE_EXISTS: u16 = 0x402d;
/// The link, or the user, has not the right.
pub const RMS_ACCESS_NOT_PERMITTED: u16 = 0x4055;
/// No file has these attributes.
pub const RMS_BAD_ATTRIBUTES: u16 = 0x405d;
/// [`RECORD_REFUSED`], and the file was not opened for the operation.
pub const RMS_NOT_PERMITTED: u16 = 0x502c;
/// No record is current.
pub const RMS_NO_CURRENT: u16 = 0x5019;
/// There is no record of the number.
pub const RMS_RECORD_NOT_FOUND: u16 = 0x5060;
/// There is a record of the number.
pub const RMS_RECORD_EXISTS: u16 = 0x505b;
/// No record may have the number.
pub const RMS_NUMBER_OUT_OF_RANGE: u16 = 0x5049;
/// No record of the file may have this length.
pub const RMS_BAD_LENGTH: u16 = 0x5066;
/// The file's records are not found so.
pub const RMS_BAD_ACCESS_MODE: u16 = 0x5057;
/// Nothing is removed from a file of this organization.
pub const RMS_DELETE_NOT_ALLOWED: u16 = 0x503a;
/// The record's Data message is longer than the peer takes.
pub const RMS_TOO_LARGE_FOR_BUFFER: u16 = 0x5067;
/// The key is no number.
pub const RMS_BAD_KEY: u16 = 0x503e;

const UNSUPPORTED: u16 = 0x2000;

const MALFORMED: u16 = 0x8000;

const INVALID: u16 = 0x9000;

const OUT_OF_SEQUENCE: u16 = 0xa000;
/// What a message's type counts in MICCODE, the field below it being 0 (DAP 5.6.0, Status message; that the field is 0
/// is a choice of this implementation).
const TYPE_UNIT: u16 = 64;

/// Returns the STSCODE where a message of this type asks for what is not supported: MACCODE 2 (DAP 5.6.0, Status
/// message).
pub fn unsupported(message_type: u8) -> u16
    ensures { result ≡ codes.unsupported_code message_type }
{
    UNSUPPORTED + TYPE_UNIT * u16::from(message_type)
}

/// Returns the STSCODE where a message of this type has a value that is not allowed: MACCODE 9 (DAP 5.6.0, Status
/// message).
pub fn invalid(message_type: u8) -> u16
    ensures { result ≡ codes.invalid message_type }
{
    INVALID + TYPE_UNIT * u16::from(message_type)
}

/// Returns the STSCODE where a message of this type is out of sequence in the exchange: MACCODE 10, with the type as
/// MICCODE.
pub fn out_of_sequence(message_type: u8) -> u16
    ensures { result ≡ codes.out_of_sequence message_type }
{
    OUT_OF_SEQUENCE + u16::from(message_type)
}

/// Returns the STSCODE where no message of this type can be read: MACCODE 8 (DAP 5.6.0, Status message).
pub(crate) fn malformed(message_type: u8) -> u16
    ensures { result ≡ codes.status_code_for message_type }
{
    if message_type <= MAX_TYPE {
        MALFORMED + TYPE_UNIT * u16::from(message_type)
    } else {
        MALFORMED
    }
}

/// Returns the STSCODE of a refused Access with a reason, as RMS has it.
fn access_error(reason: u8) -> u16
    ensures { result ≡ codes.rms_code codes.stscode.access_refused reason }
{
    match reason {
        REASON_FILE_EXISTS => RMS_FILE_EXISTS,
        REASON_NOT_PERMITTED => RMS_ACCESS_NOT_PERMITTED,
        REASON_BAD_ATTRIBUTES => RMS_BAD_ATTRIBUTES,
        _ => ACCESS_REFUSED,
    }
}

/// Returns the STSCODE of a refused operation on a record with a reason, as RMS has it.
fn record_error(reason: u8) -> u16
    ensures { result ≡ codes.rms_code codes.stscode.record_refused reason }
{
    match reason {
        REASON_NOT_PERMITTED => RMS_NOT_PERMITTED,
        REASON_NO_CURRENT => RMS_NO_CURRENT,
        REASON_RECORD_NOT_FOUND => RMS_RECORD_NOT_FOUND,
        REASON_RECORD_EXISTS => RMS_RECORD_EXISTS,
        REASON_NUMBER_OUT_OF_RANGE => RMS_NUMBER_OUT_OF_RANGE,
        REASON_BAD_LENGTH => RMS_BAD_LENGTH,
        REASON_BAD_ACCESS_MODE => RMS_BAD_ACCESS_MODE,
        REASON_DELETE_NOT_ALLOWED => RMS_DELETE_NOT_ALLOWED,
        REASON_TOO_LARGE_FOR_BUFFER => RMS_TOO_LARGE_FOR_BUFFER,
        REASON_BAD_KEY => RMS_BAD_KEY,
        _ => RECORD_REFUSED,
    }
}

/// Returns the STSCODE of a refusal with a reason as RMS has it: the MICCODE by which programs that use RMS know why,
/// from memory. Any other code, and one with a reason that RMS has no error for, stays as it is.
pub fn rms_code(code: u16, reason: u8) -> u16
    ensures { result ≡ codes.rms_code code reason }
{
    match code {
        ACCESS_REFUSED => access_error(reason),
        RECORD_REFUSED => record_error(reason),
        _ => code,
    }
}

/// States that the constants are the numbers that the definitions name.
pub fn names_the_numbers()
    ensures config { TYPE_CONFIGURATION ≡ codes.types.config }
    ensures attributes { TYPE_ATTRIBUTES ≡ codes.types.attrib }
    ensures access { TYPE_ACCESS ≡ codes.types.access }
    ensures control { TYPE_CONTROL ≡ codes.types.control }
    ensures continuing { TYPE_CONTINUE ≡ codes.types.contran }
    ensures acknowledge { TYPE_ACKNOWLEDGE ≡ codes.types.ack }
    ensures complete { TYPE_COMPLETE ≡ codes.types.accomp }
    ensures data { TYPE_DATA ≡ codes.types.filedata }
    ensures status { TYPE_STATUS ≡ codes.types.status }
    ensures greatest { MAX_TYPE ≡ codes.max_type }
    ensures open { ACCFUNC_OPEN ≡ codes.accfunc.opening }
    ensures create { ACCFUNC_CREATE ≡ codes.accfunc.creating }
    ensures erase { ACCFUNC_ERASE ≡ codes.accfunc.erasing }
    ensures get { CTLFUNC_GET ≡ codes.ctlfunc.get }
    ensures connect { CTLFUNC_CONNECT ≡ codes.ctlfunc.connect }
    ensures update { CTLFUNC_UPDATE ≡ codes.ctlfunc.update }
    ensures put { CTLFUNC_PUT ≡ codes.ctlfunc.put }
    ensures delete { CTLFUNC_DELETE ≡ codes.ctlfunc.delete }
    ensures rewind { CTLFUNC_REWIND ≡ codes.ctlfunc.rewind }
    ensures sequential { RAC_SEQUENTIAL ≡ codes.rac.sequential }
    ensures keyed { RAC_KEYED ≡ codes.rac.keyed }
    ensures address { RAC_ADDRESS ≡ codes.rac.address }
    ensures whole_file { RAC_WHOLE_FILE ≡ codes.rac.whole_file }
    ensures again { CONFUNC_AGAIN ≡ codes.confunc.again }
    ensures skip { CONFUNC_SKIP ≡ codes.confunc.skip }
    ensures abort { CONFUNC_ABORT ≡ codes.confunc.abort }
    ensures resume { CONFUNC_RESUME ≡ codes.confunc.resume }
    ensures close { CMPFUNC_CLOSE ≡ codes.cmpfunc.close }
    ensures response { CMPFUNC_RESPONSE ≡ codes.cmpfunc.response }
    ensures purge { CMPFUNC_PURGE ≡ codes.cmpfunc.purge }
    ensures end_of_stream { CMPFUNC_END_OF_STREAM ≡ codes.cmpfunc.end_of_stream }
    ensures skip_rest { CMPFUNC_SKIP ≡ codes.cmpfunc.skip }
    ensures org_sequential { ORG_SEQUENTIAL ≡ codes.org.sequential }
    ensures org_relative { ORG_RELATIVE ≡ codes.org.relative }
    ensures rfm_fixed { RFM_FIXED ≡ codes.rfm.fixed }
    ensures rfm_variable { RFM_VARIABLE ≡ codes.rfm.variable }
    ensures success_kind { MACCODE_SUCCESS ≡ codes.maccode_success }
    ensures success { SUCCESS ≡ codes.stscode.success }
    ensures file_not_found { FILE_NOT_FOUND ≡ codes.stscode.file_not_found }
    ensures access_refused { ACCESS_REFUSED ≡ codes.stscode.access_refused }
    ensures record_refused { RECORD_REFUSED ≡ codes.stscode.record_refused }
    ensures end_of_file { END_OF_FILE ≡ codes.stscode.end_of_file }
    ensures reason_file_exists { REASON_FILE_EXISTS ≡ codes.reasons.file_exists }
    ensures reason_not_permitted { REASON_NOT_PERMITTED ≡ codes.reasons.not_permitted }
    ensures reason_no_current { REASON_NO_CURRENT ≡ codes.reasons.no_current }
    ensures reason_record_not_found { REASON_RECORD_NOT_FOUND ≡ codes.reasons.record_not_found }
    ensures reason_record_exists { REASON_RECORD_EXISTS ≡ codes.reasons.record_exists }
    ensures reason_number_out_of_range { REASON_NUMBER_OUT_OF_RANGE
        ≡ codes.reasons.number_out_of_range }
    ensures reason_bad_length { REASON_BAD_LENGTH ≡ codes.reasons.bad_length }
    ensures reason_bad_access_mode { REASON_BAD_ACCESS_MODE ≡ codes.reasons.bad_access_mode }
    ensures reason_delete_not_allowed { REASON_DELETE_NOT_ALLOWED
        ≡ codes.reasons.delete_not_allowed }
    ensures reason_too_large_for_buffer { REASON_TOO_LARGE_FOR_BUFFER
        ≡ codes.reasons.too_large_for_buffer }
    ensures reason_bad_attributes { REASON_BAD_ATTRIBUTES ≡ codes.reasons.bad_attributes }
    ensures reason_bad_key { REASON_BAD_KEY ≡ codes.reasons.bad_key }
    ensures rms_file_exists { RMS_FILE_EXISTS ≡ codes.rms_access.file_exists }
    ensures rms_access_not_permitted { RMS_ACCESS_NOT_PERMITTED ≡ codes.rms_access.not_permitted }
    ensures rms_bad_attributes { RMS_BAD_ATTRIBUTES ≡ codes.rms_access.bad_attributes }
    ensures rms_not_permitted { RMS_NOT_PERMITTED ≡ codes.rms_record.not_permitted }
    ensures rms_no_current { RMS_NO_CURRENT ≡ codes.rms_record.no_current }
    ensures rms_record_not_found { RMS_RECORD_NOT_FOUND ≡ codes.rms_record.record_not_found }
    ensures rms_record_exists { RMS_RECORD_EXISTS ≡ codes.rms_record.record_exists }
    ensures rms_number_out_of_range { RMS_NUMBER_OUT_OF_RANGE
        ≡ codes.rms_record.number_out_of_range }
    ensures rms_bad_length { RMS_BAD_LENGTH ≡ codes.rms_record.bad_length }
    ensures rms_bad_access_mode { RMS_BAD_ACCESS_MODE ≡ codes.rms_record.bad_access_mode }
    ensures rms_delete_not_allowed { RMS_DELETE_NOT_ALLOWED ≡ codes.rms_record.delete_not_allowed }
    ensures rms_too_large_for_buffer { RMS_TOO_LARGE_FOR_BUFFER
        ≡ codes.rms_record.too_large_for_buffer }
    ensures rms_bad_key { RMS_BAD_KEY ≡ codes.rms_record.bad_key }
{}
